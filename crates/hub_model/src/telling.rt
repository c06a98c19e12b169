use outbox::OutText;
use resp_keep::SharedKept;
use scalar_val::{List, Val};

/// What becomes of a subscription that is told a result.
#[derive(Drop)]
pub enum Change {
    /// The text of the result is remembered as the last one.
    Remembers(SharedKept),
    /// The subscription ends.
    Ends,
    /// The cursor of a stream moves.
    Moves(Val),
}

/// What the publication of a job tells one subscription: the texts that are queued for it, and what becomes of it.
#[derive(Drop)]
pub struct Telling {
    pub sub: u64,
    pub conn: u32,
    pub texts: List<OutText>,
    pub change: Change,
}

pub type TellingList = List<Telling>;
