//! A lock round a state, with one history of events that all threads share.
//!
//! A thread steps by a pass, which has a number and the entries of the history that it has seen. It takes the state by
//! `turn`, lets it make one event, and gives it back by `give`, which adds that event with the pass's number. `give`
//! wakes the thread that is served next. `docs/history_lock.md` tells how, and what is proved.
#![tactic(auto)]

mod known;
mod lock;
mod pass;
mod plays;
mod stands;
mod steps;
mod turn;

pub use known::{Entry, Known};
pub use lock::{HistoryLock, Spent};
pub use pass::Pass;
pub use stands::{Made, Stands};
pub use turn::Turn;

#[cfg(test)]
mod tests;
