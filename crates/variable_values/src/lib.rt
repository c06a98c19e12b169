//! The variables of an operation and their values, and the values of literals.
#![tactic(auto)]

mod literals;
mod reading;
#[cfg(test)]
mod tests;
mod types;
mod values;
mod variables;

pub use literals::{literal, literal_value};
pub use reading::read_variables;
pub use variables::Variables;
