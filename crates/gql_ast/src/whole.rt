//! Whole texts.

ghost use Rattle.std.specs.Prelude.{◌≡◌, ◌≤◌, ◌<◌, ℕ, length, map, IfOk, MatchResult};
ghost use Rattle.request_model.specs.Lexemes as lex;
ghost use Rattle.request_model.specs.Place.{Reads, FaultAt, length_limit};
ghost use Rattle.gql_ast.specs.Cuts.{AreCuts};
ghost use Rattle.gql_ast.specs.Limit.{Parses, place_of};

use crate::cursor::{Stop, Tokens};
use crate::definitions::document;
use crate::limit::first_too_deep;
use gql_lex::{TokenRun, spans};
use request_model::{Document, Token};
use std::alloc::Global;

/// A text of more bytes is no document.
pub const LENGTH_LIMIT: usize = 65536;

/// Why a text has no document.
#[derive(Debug, Drop)]
pub enum ParseFault {
    /// The text is none: `at` is the byte at which its first fault starts, or 65,536 where it has more bytes.
    Syntax { at: usize },
    /// Out of memory.
    NoMemory,
}

/// Where the fault is, if the first `count` tokens are well.
fn place(tokens: &[Token], count: usize, bad_at: Option<usize>, end: usize) -> usize
    requires { count ≤ length tokens.now }
    ensures { result ≡ place_of (map (λ t. t.start) tokens.now) count bad_at end }
{
    if count < tokens.len() {
        tokens[count].start
    } else {
        bad_at.unwrap_or(end)
    }
}

fn parse_run(
    alloc: Global,
    text: &str,
    tokens: &[Token],
    bad_at: Option<usize>,
) -> Result<Document, ParseFault>
    requires fits { length text.now ≤ length_limit }
    requires run { (tokens.now, bad_at) ≡ lex.lexemes text.now }
    requires cuts { AreCuts text.now tokens.now }
    ensures { Parses text.now result }
{
    let count = first_too_deep(tokens);
    let mut shallow = Tokens::new(text, &tokens[..count]);
    match document(alloc, &mut shallow) {
        Err(Stop::NoMemory) => Err(ParseFault::NoMemory),
        Err(Stop::Syntax) => {
            let left = shallow.len();
            if left == 0 {
                let at = place(tokens, count, bad_at, text.len());
                return Err(ParseFault::Syntax { at });
            }
            Err(ParseFault::Syntax {
                at: tokens[count - left].start,
            })
        }
        Ok(found) => {
            if count == tokens.len() && bad_at.is_none() {
                return Ok(found);
            }
            let at = place(tokens, count, bad_at, text.len());
            Err(ParseFault::Syntax { at })
        }
    }
}

/// The document that the text is, where `tokens` is the run of its lexemes: the grammar is that of GraphQL October
/// 2021, section 2, with brackets nested at most 64 deep and at most 65,536 bytes.
///
/// `Syntax` comes exactly where the text is no document. Its place is the start of the first lexeme, good or bad, such
/// that the lexemes before it begin some document and with it they don't; a bracket that opens a 65th level is at fault
/// itself, and every other lexeme is judged by the grammar alone. Where all lexemes begin some document and are none,
/// it is the length of the text. Where the text is too long, it is 65,536.
pub fn parse(alloc: Global, text: &str, tokens: &TokenRun) -> Result<Document, ParseFault>
    requires { tokens.now ≡ lex.lexemes text.now }
    ensures derived { IfOk result (λ d. Reads text.now d) }
    ensures only { (d : Document) → Reads text.now d → MatchResult result (λ x. x ≡ d) (λ e. e ≡ ParseFault.NoMemory) }
    ensures first { (at : ℕ) → result ≡ Err (ParseFault.Syntax at) → FaultAt text.now at }
{
    if text.len() > LENGTH_LIMIT {
        return Err(ParseFault::Syntax { at: LENGTH_LIMIT });
    }
    spans();
    parse_run(alloc, text, tokens.items(), tokens.bad_at())
}
