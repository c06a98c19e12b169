//! The bindings of a batch, each with its result id: the relation that a batch's statement is joined with.
#![tactic(auto)]

mod relation;
#[cfg(test)]
mod tests;

pub use relation::{RelRow, Relation};
