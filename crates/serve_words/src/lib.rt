//! The words of the command `serve`.
#![tactic(auto)]

mod by_clap;
mod number;
mod valid;
mod words;

pub use words::{ServeWords, WordsFault, read_words};

#[cfg(test)]
mod tests;
