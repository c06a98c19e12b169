//! Serving one connection to the commit port: each line is a transaction, and is answered by a line.
#![tactic(auto)]

mod answer;
mod end;
mod put;
mod reader;
mod serve;

pub use end::CommitEnd;
pub use serve::serve_commits;

#[cfg(test)]
mod tests;
