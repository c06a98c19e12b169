//! Tables of rows that are shared and changed: a snapshot is a database that fits its catalog.
#![tactic(auto)]

mod changes;
mod copying;
mod finding;
#[cfg(test)]
mod index_tests;
mod key_set;
mod row;
mod sharing;
mod snapshot;
mod stored;
mod table;
mod tables;
mod taken;
#[cfg(test)]
mod tests;
mod unique_key;

pub use data_model::{Catalog, Column, SetCell, TableDef};
pub use row::{Row, copy_row};
pub use snapshot::{Scan, Snapshot, ValList};
pub use stored::Stored;
