//! The tests of admission and of what it makes: requests over metadata and transactions as texts, with the refusal or
//! the payload that each gets. They cross the crates from reading a request to evaluating its plan, so they stand above
//! all of them.
#![tactic(auto)]

#[cfg(test)]
mod payloads;
#[cfg(test)]
mod refusals;
#[cfg(test)]
mod world;
