use outbox::OutText;
use scalar_val::List;

/// A text that was queued for a connection.
#[derive(Drop)]
pub struct Queued {
    /// The connection's number.
    pub conn: u32,
    /// The whole text of one message of the server.
    pub text: OutText,
}

/// The texts that one event queued, in order.
pub type QueuedList = List<Queued>;
