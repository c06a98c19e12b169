//! One plan on one snapshot: its tables are read once, and then it is run with any number of bindings, by nested resolvers.
#![tactic(auto)]

mod cut;
mod node;
mod order;
mod outcome;
mod pin;
mod prepare;
mod source;
#[cfg(test)]
mod tests;
mod values;
mod write;

pub use outcome::{PreparedPlan, eval, eval_counted};
