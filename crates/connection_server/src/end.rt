/// How the serving of a connection ended.
#[derive(Clone, Copy, Debug, PartialEq, Eq)]
pub enum End {
    /// The connection was closed with this code, from 4400 to 4499, and so was the link.
    Closed(u16),
    /// The peer closed the link.
    PeerClosed,
    /// The link failed, and its count of faults rose.
    LinkFault,
    /// The connection was known already. It isn't served, and stays as it is.
    ConnKnown,
    /// All 2^62 turns of the engine's lock are taken and given back.
    Spent,
    /// Memory was refused.
    NoMemory,
}
