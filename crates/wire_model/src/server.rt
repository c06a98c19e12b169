/// What the server says. A payload is a JSON text.
#[derive(Clone, Copy, Debug, Drop)]
pub enum ServerMsg<'a> {
    /// `connection_ack`
    Ack,
    Pong,
    Next {
        id: &'a str,
        payload: &'a [u8],
    },
    Error {
        id: &'a str,
        message: &'a str,
        code: &'a str,
    },
    Complete {
        id: &'a str,
    },
}
