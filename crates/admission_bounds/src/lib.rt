//! How many slots a plan can have, proved over the definitions of `query_model`: few enough to be numbered. It has no
//! logic and no data.
#![tactic(auto)]

mod laws;
#[cfg(test)]
mod tests;

pub use laws::{few_slots, few_variables};
