//! The filters of permissions are read from JSON values, with the session variables that they name.
#![tactic(auto)]

mod json_filter;
mod mentions;

pub use json_filter::{number_of_column, op_of, read_filter, slot_in};
pub use mentions::push_mentions;
