/// How the serving of one connection to the commit port ended.
#[derive(Clone, Copy, Debug, PartialEq, Eq)]
pub enum CommitEnd {
    /// The source ended. Each whole line was answered.
    Ended,
    /// The source failed, and its count of faults rose.
    SourceFault,
    /// The sink failed, and its count of faults rose.
    SinkFault,
    /// A line has more than 1,048,576 bytes. It isn't taken.
    TooLong,
    /// All 2^62 turns of the engine's lock are taken and given back.
    Spent,
    /// Memory was refused.
    NoMemory,
}
