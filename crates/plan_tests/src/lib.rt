//! The tests of the crates that make plans, from GraphQL texts to plans that are written out. A crate with tests of its
//! own is proved twice, so theirs stand here.
#![tactic(auto)]

#[cfg(test)]
mod plans;
#[cfg(test)]
mod requests;
#[cfg(test)]
mod slots;
#[cfg(test)]
mod texts;
