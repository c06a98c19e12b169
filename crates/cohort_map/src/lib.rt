//! Subscriptions in their cohorts: which of them share one evaluation, which are due, and which are members of open jobs.
#![tactic(auto)]

mod choice;
mod chosen_set;
mod compact;
mod gathered;
mod key;
mod keys;
mod listed;
mod map;
mod member;
mod order;
mod polled;
mod seat;
mod seats;
#[cfg(test)]
mod tests;

pub use key::PollerKey;
pub use map::CohortMap;
pub use member::{Member, MemberList, SubList};
pub use order::cohort_laws;
