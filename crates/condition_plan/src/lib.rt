//! The conditions, orders and numbers that a selection's arguments write, and the role's filters, as parts of a plan:
//! with slots in the places of variables and of session variables.
#![tactic(auto)]

mod arguments;
mod operands;
mod order_by;
mod permissions;
mod places;
#[cfg(test)]
mod tests;
mod wheres;

pub use arguments::{argument, cursor_pairs, descends, initial_column, initial_pair};
pub use operands::{batch, count, operand};
pub use order_by::orders;
pub use permissions::permission;
pub use places::Places;
pub use wheres::{key_condition, where_filter};
