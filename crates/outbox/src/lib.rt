//! Texts that several owners share, and the queue of a connection's texts that wait to be sent.
#![tactic(auto)]

mod queue;
#[cfg(test)]
mod tests;
mod text;

pub use queue::Outbox;
pub use text::OutText;
