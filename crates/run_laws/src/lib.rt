//! What holds of every run of the machine that the runtime is compared with: the laws of subscriptions, of the
//! connections that they are of, of the jobs that answer them, and of streams. In `specs/` stand the laws, and in
//! `proofs/` beside their proofs worked runs.
#![tactic(auto)]

mod laws;
mod streams;
mod takings;

pub use laws::run_laws;
pub use streams::stream_laws;
pub use takings::taking_laws;
