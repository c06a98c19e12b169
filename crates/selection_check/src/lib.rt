//! The first fault of a selection for a role: fields, arguments, values and conditions, in the order in which they are
//! walked. No call takes memory.
#![tactic(auto)]

mod arguments;
mod conditions;
mod cursor;
mod literals;
mod orders;
mod pairs;
mod refusal;
#[cfg(test)]
mod tests;
mod values;
mod walk;

pub use refusal::Refusal;
pub use walk::walk_fault;
