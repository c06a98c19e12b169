//! The engine: a hub that threads share. Each caller has a pass, by which it knows a beginning of one history of
//! events, and learns that its answer is the machine's at its own place in that history.
#![tactic(auto)]

mod engine;
mod free;
mod gate;
mod giving;
mod hold;
mod making;
mod poll;

pub use engine::{CallFault, Engine, Pass, PublishFault, TakeFault};
pub use free::{FreeGate, Never};
pub use gate::Gate;
pub use hold::{Hold, HoldGate, HoldStop};
pub use hub::{
    Answers, CommitReply, ConnReply, Counts, DrainReply, Effect, Event, Hub, Job, OutcomeList,
    PublishReply, Reply,
};
pub use poll::Polled;

#[cfg(test)]
mod tests;
