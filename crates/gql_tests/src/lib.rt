//! The tests of the crates that read GraphQL requests, from lexemes to flat selections. A crate with tests of its own
//! is proved twice, so theirs stand here.
#![tactic(auto)]

#[cfg(test)]
mod documents;
#[cfg(test)]
mod flats;
#[cfg(test)]
mod lexemes;
#[cfg(test)]
mod scopes;
