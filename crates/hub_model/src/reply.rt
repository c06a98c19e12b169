use data_model::TxFault;
use machine::QueuedList;
use outbox::OutText;
use wire_model::CloseReason;

/// What an event of a connection did beside its reply.
#[derive(Drop)]
pub struct Effect {
    /// The texts that it queued, in order.
    pub queued: QueuedList,
    /// The reason for which it closed the connection, if it did.
    pub closed: Option<CloseReason>,
}

/// The reply to an event of a connection.
#[derive(Drop)]
pub enum ConnReply {
    /// The connection isn't known; nothing has changed.
    ConnUnknown,
    /// The connection that is to be opened is known already; nothing has changed.
    ConnKnown,
    /// The event was done.
    Did(Effect),
}

/// The reply to a transaction.
#[derive(Drop)]
pub enum CommitReply {
    /// It was accepted, and this is the version after it: the number of transactions accepted so far.
    Committed(u64),
    /// It was refused, and nothing has changed: the first change at fault, with its reason.
    Refused(TxFault),
}

/// The reply to the draining of a connection's queue.
#[derive(Drop)]
pub enum DrainReply {
    /// The connection isn't known; nothing has changed.
    ConnUnknown,
    /// The first text, which left the queue.
    Sent(OutText),
    /// The queue is empty, and the connection isn't closed.
    Empty,
    /// The queue is empty, and the connection was closed with this reason.
    Done(CloseReason),
}

/// The reply to the publication of a job's answers.
#[derive(Drop)]
pub enum PublishReply {
    /// The number isn't that of an open job.
    NotOpen,
    /// The job is closed, and these texts were queued, in order.
    Published(QueuedList),
}
