//! The lexemes that are left to read.

ghost use Rattle.std.specs.Prelude.{◌≡◌, [], ◌∷◌, ◌↔◌, IsTrue, length, MatchBool, MatchOption, false, List};
ghost use Rattle.request_model.specs.Grammar.{Lexeme, Punct, Spread, Name, Int, Quoted};
ghost use Rattle.request_model.specs.Place.{lexemes_of};

use request_model::{Token, TokenKind};
use scalar_val::NoMemory;
use std::marker::Model;

/// Why a rule reads no further. At `Syntax` the tokens that are left begin with the one at fault.
#[derive(Clone, Copy, Debug)]
pub enum Stop {
    Syntax,
    NoMemory,
}

impl From<NoMemory> for Stop {
    ghost use Rattle.std.specs.Prelude.{◌≡◌};
    ghost use Rattle.gql_ast.specs.declared.cursor.Stop.TheVariants.{NoMemory};

    ghost from_gives = { λ _ e. e ≡ NoMemory };

    fn from(_error: NoMemory) -> Stop {
        Stop::NoMemory
    }
}

fn same(a: &str, b: &str) -> bool
    ensures { MatchBool result (a.now ≡ b.now) (a.now ≡ b.now → ⊥) }
{
    a == b
}

/// The tokens that are left of a text. Contracts see their lexemes.
#[derive(Debug, Drop)]
pub struct Tokens<'a> {
    text: &'a str,
    rest: &'a [Token],
}

impl<'a> Model for Tokens<'a> {
    ghost use Rattle.std.specs.Prelude.{List};
    ghost use Rattle.request_model.specs.Grammar.{Lexeme};
    ghost use Rattle.request_model.specs.Place.{lexemes_of};
    ghost use Rattle.gql_ast.specs.Cuts.{AreCuts};

    ghost Value = { List Lexeme };

    ghost view = { λ t. lexemes_of t.text.now t.rest.now };

    ghost invariant = { λ t. AreCuts t.text.now t.rest.now };
}

impl<'a> Tokens<'a> {
    ghost use Rattle.gql_ast.specs.Fronts.{IsAt, NotAt, NotSpread, NotWord, NotName, NotInt, NotQuoted};
    ghost use Rattle.gql_ast.specs.Cuts.{AreCuts};

    pub fn new(text: &'a str, rest: &'a [Token]) -> Tokens<'a>
        requires { AreCuts text.now rest.now }
        ensures { result ≡ lexemes_of text.now rest.now }
    {
        Tokens { text, rest }
    }

    pub fn len(&self) -> usize
        ensures { result ≡ length self.now }
    {
        self.rest.len()
    }

    pub fn is_empty(&self) -> bool
        ensures { IsTrue result ↔ (self.now ≡ []) }
    {
        self.rest.is_empty()
    }

    /// Whether the punctuator comes next.
    pub fn is_at(&self, b: u8) -> bool
        ensures { MatchBool result (IsAt b self.now) (NotAt b self.now) }
    {
        if let [first, ..] = self.rest
            && let TokenKind::Punct(found) = first.kind
            && found == b
        {
            return true;
        }
        false
    }

    /// Takes the punctuator, if it comes next.
    pub fn eat(&mut self, b: u8) -> bool
        ensures { MatchBool result (self.old ≡ Punct b ∷ self.new) ((self.new ≡ self.old) × NotAt b self.old) }
    {
        if let [first, rest @ ..] = self.rest
            && let TokenKind::Punct(found) = first.kind
            && found == b
        {
            self.rest = rest;
            return true;
        }
        false
    }

    /// Takes the `$` of a variable, if one may stand here and comes next.
    pub fn eat_dollar(&mut self, constant: bool) -> bool
        ensures { MatchBool result ((constant ≡ false) × (self.old ≡ Punct 36 ∷ self.new))
            ((self.new ≡ self.old) × (constant ≡ false → NotAt 36 self.old)) }
    {
        if constant {
            return false;
        }
        self.eat(b'$')
    }

    /// Takes the three dots, if they come next.
    pub fn eat_spread(&mut self) -> bool
        ensures { MatchBool result (self.old ≡ Spread ∷ self.new) ((self.new ≡ self.old) × NotSpread self.old) }
    {
        if let [first, rest @ ..] = self.rest
            && let TokenKind::Spread = first.kind
        {
            self.rest = rest;
            return true;
        }
        false
    }

    /// Takes the name, if one comes next.
    pub fn name(&mut self) -> Option<&'a str>
        ensures { MatchOption result ((self.new ≡ self.old) × NotName self.old)
            (λ n. self.old ≡ Name n.now ∷ self.new) }
    {
        if let [first, rest @ ..] = self.rest
            && let TokenKind::Name = first.kind
        {
            self.rest = rest;
            return Some(&self.text[first.start..first.end]);
        }
        None
    }

    /// Whether this name comes next.
    pub fn is_word(&self, word: &str) -> bool
        ensures { MatchBool result ((more : List Lexeme) × (self.now ≡ Name word.now ∷ more))
            (NotWord word.now self.now) }
    {
        if let [first, ..] = self.rest
            && let TokenKind::Name = first.kind
        {
            return same(&self.text[first.start..first.end], word);
        }
        false
    }

    /// Takes this name, if it comes next.
    pub fn eat_word(&mut self, word: &str) -> bool
        ensures { MatchBool result (self.old ≡ Name word.now ∷ self.new)
            ((self.new ≡ self.old) × NotWord word.now self.old) }
    {
        if !self.is_word(word) {
            return false;
        }
        self.rest = &self.rest[1..];
        true
    }

    /// Takes the integer, if one comes next.
    pub fn int(&mut self) -> Option<&'a str>
        ensures { MatchOption result ((self.new ≡ self.old) × NotInt self.old) (λ n. self.old ≡ Int n.now ∷ self.new) }
    {
        if let [first, rest @ ..] = self.rest
            && let TokenKind::Int = first.kind
        {
            self.rest = rest;
            return Some(&self.text[first.start..first.end]);
        }
        None
    }

    /// Takes the string, if one comes next, and answers what stands between its quotes.
    pub fn quoted(&mut self) -> Option<&'a str>
        ensures { MatchOption result ((self.new ≡ self.old) × NotQuoted self.old)
            (λ n. self.old ≡ Quoted n.now ∷ self.new) }
    {
        if let [first, rest @ ..] = self.rest
            && let TokenKind::Text = first.kind
        {
            self.rest = rest;
            return Some(&self.text[first.start + 1..first.end - 1]);
        }
        None
    }
}
