//! The script that `load` runs: so many subscribers to users by their key, and ten rounds of a
//! change and a poll; and the line that sums up its transcript.
#![tactic(auto)]

mod generated;
mod parts;
mod summary;
#[cfg(test)]
mod tests;

pub use generated::load_script;
pub use summary::summary_line;
