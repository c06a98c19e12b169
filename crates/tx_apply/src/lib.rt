//! Transactions: read from their JSON, and applied to a snapshot as a whole or not at all.
#![tactic(auto)]

mod applying;
mod changing;
mod members;
mod naming;
mod reading;
mod reasons;
#[cfg(test)]
mod tests;
mod values;

pub use applying::{ApplyFault, apply};
pub use data_model::{Reason, Tx, TxCell, TxCells, TxChange, TxFault};
pub use reading::{TxTextFault, read_tx};
