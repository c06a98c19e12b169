//! What holds of the meanings of clients' texts and of the outcomes of scripts, proved over the definitions of
//! `machine`.
#![tactic(auto)]

mod laws;

pub use laws::{meanings, outcomes};
