//! The machine that the runtime is compared with. Its definitions stand in `specs/`, and worked runs in `proofs/`.
//! The types here are the plain data that the definitions and the other crates speak of.
#![tactic(auto)]

mod counts;
mod phase;
mod queued;
mod script;

pub use counts::Counts;
pub use phase::Phase;
pub use queued::{Queued, QueuedList};
pub use script::ScriptReason;
