//! The plain data that tables and transactions are made of, and in `specs/` what rows, databases and transactions mean.
#![tactic(auto)]

mod catalog;
mod json_parts;
#[cfg(test)]
mod tests;
mod transaction;

pub use catalog::{Catalog, Column, ColumnDefList, ColumnList, TableDef, TableDefList};
pub use json_parts::{member, read_scalar, read_scalar_or_null};
pub use transaction::{Reason, SetCell, Tx, TxCell, TxCells, TxChange, TxFault};
