//! One plan with all bindings of a batch on one snapshot: its tables are read once.
#![tactic(auto)]

mod batch;

pub use batch::{OutcomeList, eval_batch};
