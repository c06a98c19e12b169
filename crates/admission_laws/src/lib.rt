//! What holds of admission and of plans, proved over the definitions of `query_model`. It has no logic and no data.
#![tactic(auto)]

mod laws;
#[cfg(test)]
mod tests;

pub use laws::{plans, pollers, requests};
