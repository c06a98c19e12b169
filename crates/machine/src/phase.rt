use role_model::Session;
use wire_model::CloseReason;

/// How far a connection has come (the `graphql-transport-ws` protocol).
#[derive(Drop)]
pub enum Phase {
    /// It was opened, and no `connection_init` was acknowledged.
    Fresh,
    /// Its `connection_init` was acknowledged, and it acts for this session.
    Acknowledged { session: Session },
    /// It was closed with this reason.
    Closed { reason: CloseReason },
}
