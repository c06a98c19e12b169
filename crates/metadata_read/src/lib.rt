//! The first fault of a metadata document, and what it says where nothing is wrong with it.
#![tactic(auto)]

mod faults;
mod finding;
mod held;
mod meaning;
mod mentions;
#[cfg(test)]
mod plain;
#[cfg(test)]
mod tests;

pub use finding::find_fault;
pub use meaning::{Meaning, read_meaning};
