//! The limit on the nesting of brackets.

ghost use Rattle.std.specs.Prelude.{◌≡◌, ◌≤◌, ℕ, length, IfSome, IfNone, true, false};
ghost use Rattle.request_model.specs.Strings.{Text};
ghost use Rattle.request_model.specs.Place.{lexeme, lexemes_of, opens_65th, level_after};
ghost use Rattle.gql_ast.specs.Limit.{deep_from};

use request_model::{Token, TokenKind};

/// How many brackets are open after the token, unless it opens a 65th level.
fn next_level(level: usize, kind: TokenKind) -> Option<usize>
    requires { level ≤ 64 }
    ensures none { IfNone result ((text : Text) (i j : ℕ) →
        opens_65th level (lexeme text (record { kind = kind; start = i; end = j })) ≡ true) }
    ensures some { IfSome result (λ next. (text : Text) (i j : ℕ) →
        (opens_65th level (lexeme text (record { kind = kind; start = i; end = j })) ≡ false)
        × (next ≡ level_after level (lexeme text (record { kind = kind; start = i; end = j })))) }
    ensures small { IfSome result (λ next. next ≤ 64) }
{
    let TokenKind::Punct(b) = kind else {
        return Some(level);
    };
    if b == b'(' || b == b'[' || b == b'{' {
        return if level >= 64 { None } else { Some(level + 1) };
    }
    if b == b')' || b == b']' || b == b'}' {
        return Some(level.saturating_sub(1));
    }
    Some(level)
}

/// How many tokens stand before the first bracket that opens a 65th level.
pub fn first_too_deep(tokens: &[Token]) -> usize
    ensures value { (text : Text) → result ≡ deep_from 0 (lexemes_of text tokens.now) }
    ensures within { result ≤ length tokens.now }
{
    let mut level: usize = 0;
    for (i, token) in tokens.iter().enumerate() {
        match next_level(level, token.kind) {
            None => return i,
            Some(next) => level = next,
        }
    }
    tokens.len()
}
