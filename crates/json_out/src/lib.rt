//! JSON as a tree with its compact text, and the plain data of requests and of their results.
#![tactic(auto)]

mod data;
mod node;
#[cfg(test)]
mod tests;
mod text;

pub use data::{Outcome, Request};
pub use node::{JList, JNode, JPair, JPairs};
pub use text::{write, write_text};
