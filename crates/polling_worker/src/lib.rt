//! A worker that polls: it makes subscriptions due from time to time, and has jobs taken, evaluated and published.
#![tactic(auto)]

mod poll;
mod tick;
mod worker;

pub use worker::poll_worker;

#[cfg(test)]
mod tests;
