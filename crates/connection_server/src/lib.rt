//! Serving one connection: what comes over its link becomes events of the engine, and what is queued for it is sent.
#![tactic(auto)]

mod drain;
mod end;
mod intake;
mod serve;
mod talk;

pub use end::End;
pub use serve::serve_conn;

#[cfg(test)]
mod tests;
