//! Links over WebSockets, and the port that their connections come from: the trusted edge of the server.
#![tactic(auto)]

mod answer;
mod bell;
mod handshake;
mod link;
mod paced;
mod port;

pub use bell::Bell;
pub use handshake::{WsFault, accept_ws};
pub use link::WsLink;
pub use port::{WsConn, WsPort};

#[cfg(test)]
mod tests;
