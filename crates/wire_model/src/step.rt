/// How far a connection has come.
#[derive(Clone, Copy, Debug, PartialEq, Eq)]
pub enum Phase {
    /// It is open, and sent no `connection_init` yet.
    Fresh,
    /// Its `connection_init` was acknowledged.
    Acked,
    /// It was closed by the server.
    Closed,
}

/// What a client's message asks of the server.
#[derive(Clone, Copy, Debug, PartialEq, Eq)]
pub enum Action {
    /// Find out who the client is, and acknowledge or refuse the connection.
    Identify,
    /// Admit or refuse a subscribe.
    Admit,
    /// End the live subscription of the message's id.
    End,
    /// Queue a `pong`.
    Pong,
    /// Do nothing.
    Ignore,
    /// Close with 4400.
    Invalid,
    /// Close with 4401.
    Unauthorized,
    /// Close with 4409.
    Exists,
    /// Close with 4429.
    TooManyInits,
}
