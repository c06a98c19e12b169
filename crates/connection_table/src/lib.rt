//! The known connections: how far each has come, the texts queued for it, and the numbers of its live subscriptions.
#![tactic(auto)]

mod connection;
mod table;
#[cfg(test)]
mod tests;

pub use table::ConnectionTable;
