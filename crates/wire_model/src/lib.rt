//! What stands on the wire of the `graphql-transport-ws` protocol, and the generated script. In `specs/` stand the
//! messages of clients and servers, the reasons of closes, the table of a connection's events and the script's lines; the
//! types here are the plain data that these speak of, with the code, the text and the cut of a close's reason.
#![tactic(auto)]

mod close;
mod server;
mod step;
#[cfg(test)]
mod tests;

pub use close::{CloseReason, ReasonText, close_exists};
pub use server::ServerMsg;
pub use step::{Action, Phase};
