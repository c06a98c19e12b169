//! Rows of a table that are found by what a value of theirs has to be, without a look at all of them.
#![tactic(auto)]

mod chain;
mod comparison;
mod found;
mod key;
mod lookup;

pub use comparison::{Comparison, Comparisons};
pub use found::Found;
pub use lookup::Lookup;
