//! How long the strings of metadata are, and how many session variables a role names, proved over the definitions of
//! `role_model`. It has no logic and no data.
#![tactic(auto)]

mod laws;
#[cfg(test)]
mod tests;

pub use laws::{filters, names};
