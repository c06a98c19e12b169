//! The hub: the one place where the runtime's state changes, one event at a time. Each call that changes it is one event
//! of the machine, for every history that the hub stands for.
#![tactic(auto)]

mod center;
mod conversation;
#[cfg(test)]
mod conversation_tests;
mod ends;
mod event;
mod jobs;
mod publication;
mod reading;
mod standing;
mod taking;
mod telling;
#[cfg(test)]
mod tests;

pub use center::Hub;
pub use event::{Event, Reply};
pub use hub_model::{
    Answers, CommitReply, ConnReply, DrainReply, Effect, Job, OutcomeList, PublishReply,
};
pub use machine::{Counts, Queued, QueuedList};
pub use reading::Said;
pub use standing::Happening;
