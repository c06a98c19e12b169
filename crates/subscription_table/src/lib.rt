//! What is kept of each subscription beside its place among the others: who asked for it, its plan, and the text of its
//! last result.
#![tactic(auto)]

mod held;
mod plan;
mod table;
#[cfg(test)]
mod tests;

pub use held::Held;
pub use plan::SharedPlan;
pub use table::SubscriptionTable;
