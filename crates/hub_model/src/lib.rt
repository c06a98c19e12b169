//! What the hub keeps of the machine's state, which histories it stands for, and what each of its calls does to it. Here
//! are the plain types of its jobs and replies; the definitions stand in `specs/`, and in `proofs/` that each step is the
//! machine's.
#![tactic(auto)]

mod job;
mod reply;
mod telling;
#[cfg(test)]
mod tests;

pub use job::{Answers, Job, OpenJob, OutcomeList, job_laws};
pub use reply::{CommitReply, ConnReply, DrainReply, Effect, PublishReply};
pub use telling::{Change, Telling, TellingList};
