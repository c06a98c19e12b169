//! The operations and the fragments of a GraphQL document, what decides directives and spreads, and what refuses an
//! operation before its fields are collected.
#![tactic(auto)]

mod fragments;
mod graph;
mod names;
mod operation;
mod refusals;
mod scope;
mod spreads;
mod walks;

pub use fragments::Fragments;
pub use names::repeats;
pub use operation::{Fragment, Operation, chosen, fragments_of, operations_of};
pub use refusals::first_refusal;
pub use scope::Scope;
