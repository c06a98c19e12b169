//! What the names of fields mean to a role: the fields of the root, and the fields of a table's objects; and the names
//! and the kinds of tables and columns.
#![tactic(auto)]

mod fields;
mod object_fields;
mod root_fields;
mod tables;
#[cfg(test)]
mod tests;

pub use fields::{Meant, Root};
pub use object_fields::meant;
pub use root_fields::root;
pub use tables::{column_name, key_columns, kind_of, type_name};
