//! Arguments in the order of their names, whether they are the same, and the canonical texts of flat selections.
#![tactic(auto)]

mod canonical;
mod ordered;
mod same;
#[cfg(test)]
mod tests;
mod values_text;

pub use canonical::canon;
pub use ordered::ordered_by_name;
pub use same::{same_ordered, same_pairs};
