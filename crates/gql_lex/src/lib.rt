//! The lexemes of a GraphQL text, with their places.
#![tactic(auto)]

mod bytes;
mod chars;
mod front;
mod run;

pub use chars::unescaped;
pub use request_model::{Token, TokenKind};
pub use run::{LexFault, TokenRun, spans, tokens};
