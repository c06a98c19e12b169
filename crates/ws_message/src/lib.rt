//! The messages of the `graphql-transport-ws` protocol: what clients say is read, what the server says is written, and
//! the reasons of closes.
#![tactic(auto)]

mod client;
mod members;
mod server;
#[cfg(test)]
mod tests;

pub use client::{ClientMsg, read_client};
pub use server::write_server;
pub use wire_model::{CloseReason, ReasonText, ServerMsg, close_exists};
