/// What a lexeme is: a punctuator with its byte, the three dots, a name, an integer or a string (GraphQL October 2021,
/// section 2.1, "Source Text").
#[derive(Clone, Copy, Debug, PartialEq, Eq)]
pub enum TokenKind {
    Punct(u8),
    Spread,
    Name,
    Int,
    Text,
}

/// A lexeme and its place: its text is the slice of the source from byte `start` up to byte `end`, the quotes of a
/// string included.
#[derive(Clone, Copy, Debug, PartialEq, Eq)]
pub struct Token {
    pub kind: TokenKind,
    pub start: usize,
    pub end: usize,
}
