//! What happens to a hub from outside, and what it replies, as values.
use hub_model::{CommitReply, ConnReply, DrainReply};
use machine::Counts;
use scalar_val::Str;
use tx_apply::Tx;

/// What happens to a hub. Connections have numbers that their server gives them.
#[derive(Drop)]
pub enum Event {
    /// A transaction.
    Commit(Tx),
    /// A connection opens.
    Connect(u32),
    /// A text comes on a connection.
    Text(u32, Str),
    /// A binary message comes on a connection.
    Binary(u32),
    /// The time for a `connection_init` on a connection is over.
    Timeout(u32),
    /// A connection is gone.
    Gone(u32),
    /// All live subscriptions become due, but those whose cohort is in an open job.
    Tick,
    /// The job of this number ends without a publication.
    Abandon(u64),
    /// The first text of a connection's queue is wanted.
    Drain(u32),
    /// The counts are wanted.
    Report,
}

/// The reply to an event, which is of the event's kind.
#[derive(Drop)]
pub enum Reply {
    /// To `Connect`, `Text`, `Binary`, `Timeout` and `Gone`.
    Conn(ConnReply),
    /// To `Commit`.
    Commit(CommitReply),
    /// To `Tick`: how many are due.
    Tick(u64),
    /// To `Abandon`: whether the number was that of an open job.
    Abandon(bool),
    /// To `Drain`.
    Drain(DrainReply),
    /// To `Report`.
    Report(Counts),
}
