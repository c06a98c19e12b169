//! Tests of an engine that threads share. It has no logic and no data.
#![tactic(auto)]

#[cfg(test)]
mod calls;
#[cfg(test)]
mod threads;
