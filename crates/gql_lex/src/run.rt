//! The run of lexemes of a text.

ghost use Rattle.std.specs.Prelude.{◌≡◌, IfOk};
ghost use Rattle.request_model.specs.Strings.{Text};
ghost use Rattle.request_model.specs.Lexemes as spec;
ghost use Rattle.gql_lex.specs.Spans.{AreSpans, AreInOrder};

use crate::front::{Front, front_of};
use request_model::Token;
use std::alloc::{AllocError, AllocFailed, Global};
use std::marker::Model;

/// Why a text has no run.
#[derive(Clone, Copy, Debug, PartialEq, Eq)]
pub enum LexFault {
    /// Out of memory.
    NoMemory,
}

impl<T: Drop> From<AllocFailed<T>> for LexFault {
    fn from(_error: AllocFailed<T>) -> LexFault {
        LexFault::NoMemory
    }
}

/// The lexemes of a text before its first bad one, and the place of that one, if there is one. Contracts see the pair
/// of both.
#[derive(Debug, Drop)]
pub struct TokenRun {
    items: Vec<Token>,
    bad: Option<usize>,
}

impl Model for TokenRun {
    ghost use Rattle.std.specs.Prelude.{List, ℕ, Option};
    ghost use Rattle.request_model.specs.declared.token.Token.{Token};

    ghost Value = { List Token × Option ℕ };

    ghost view = { λ r. (r.items.items, r.bad) };
}

impl TokenRun {
    /// The lexemes, in order.
    pub fn items(&self) -> &[Token]
        ensures { result.now ≡ self.now.0 }
    {
        self.items.as_slice()
    }

    /// The byte at which the first bad lexeme starts.
    pub fn bad_at(&self) -> Option<usize>
        ensures { result ≡ self.now.1 }
    {
        self.bad
    }
}

/// The lexemes of the text, each as long as possible, up to its first bad one (GraphQL October 2021, section 2.1,
/// "Source Text"). It fails only when out of memory.
pub fn tokens(alloc: Global, text: &str) -> Result<TokenRun, LexFault>
    ensures { IfOk result (λ run. run ≡ spec.lexemes text.now) }
{
    let bytes = text.as_bytes();
    let mut items = Vec::new(alloc);
    let mut at = 0;
    'each: while at < bytes.len() {
        match front_of(&bytes[at..]) {
            Front::Ignored(len) => at += len,
            Front::Found(kind, len) => {
                let end = at + len;
                items.push(Token {
                    kind,
                    start: at,
                    end,
                })?;
                at = end;
            }
            Front::Bad => {
                return Ok(TokenRun {
                    items,
                    bad: Some(at),
                });
            }
        }
    }
    Ok(TokenRun { items, bad: None })
}

/// The lexemes of every text lie in it, in order. Each begins and ends with an ASCII byte, so the text may be cut
/// there, and a string has its two quotes.
pub fn spans()
    ensures within { (text : Text) → AreSpans text (spec.lexemes text).0 }
    ensures in_order { (text : Text) → AreInOrder 0 (spec.lexemes text).0 }
{}
