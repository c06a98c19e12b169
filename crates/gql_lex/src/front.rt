//! The front of a text: what is ignored there, or a lexeme.

ghost use Rattle.std.specs.Prelude.{◌≡◌, ◌<◌, ◌≤◌, length, drop, slice_index, true};
ghost use Rattle.std.specs.Char.{is_ascii_digit};
ghost use Rattle.std.specs.List.{prefix_len};
ghost use Rattle.request_model.specs.Strings as strings;
ghost use Rattle.request_model.specs.Lexemes as spec;
ghost use Rattle.gql_lex.specs.Fronts.{meaning, IsWithin};

use crate::bytes::byte;
use crate::chars::closed_len;
use request_model::TokenKind;

/// What a text begins with: so many bytes that are ignored, a lexeme of so many bytes, or neither.
#[derive(Clone, Copy, Debug)]
pub enum Front {
    Ignored(usize),
    Found(TokenKind, usize),
    Bad,
}

fn is_blank(b: u8) -> bool
    ensures { result ≡ spec.is_blank b }
{
    b == 9 || b == 10 || b == 13 || b == b' ' || b == b','
}

fn is_mark(z: &[u8]) -> bool
    ensures value { result ≡ spec.is_mark z.now }
    ensures within { result ≡ true → 2 < length z.now }
{
    byte(z, 0) == 239 && byte(z, 1) == 187 && byte(z, 2) == 191
}

fn is_punct(b: u8) -> bool
    ensures { result ≡ spec.is_punct b }
{
    b == b'!'
        || b == b'$'
        || b == b'&'
        || b == b'('
        || b == b')'
        || b == b':'
        || b == b'='
        || b == b'@'
        || b == b'['
        || b == b']'
        || b == b'{'
        || b == b'|'
        || b == b'}'
}

fn starts_name(b: u8) -> bool
    ensures { result ≡ spec.starts_name b }
{
    b.is_ascii_alphabetic() || b == b'_'
}

fn is_in_name(b: u8) -> bool
    ensures { result ≡ spec.is_in_name b }
{
    b.is_ascii_alphanumeric() || b == b'_'
}

fn is_in_line(b: u8) -> bool
    ensures { result ≡ spec.is_in_line b }
{
    !(b == b'\n' || b == b'\r')
}

fn line_len(z: &[u8]) -> usize
    ensures value { result ≡ prefix_len spec.is_in_line z.now }
    ensures within { result ≤ length z.now }
{
    let mut end = 0;
    while end < z.len() && is_in_line(z[end]) {
        end += 1;
    }
    end
}

fn name_len(z: &[u8]) -> usize
    requires some { 0 < length z.now }
    requires starts { spec.starts_name (slice_index z.now 0) ≡ true }
    ensures value { result ≡ prefix_len spec.is_in_name z.now }
    ensures within { (1 ≤ result) × (result ≤ length z.now) }
{
    let mut end = 0;
    while end < z.len() && is_in_name(z[end]) {
        end += 1;
    }
    end
}

fn run_of_digits(z: &[u8]) -> usize
    ensures value { result ≡ prefix_len is_ascii_digit z.now }
    ensures within { result ≤ length z.now }
{
    let mut end = 0;
    while end < z.len() && z[end].is_ascii_digit() {
        end += 1;
    }
    end
}

fn digits_len(z: &[u8]) -> usize
    ensures value { result ≡ spec.digits_len z.now }
    ensures within { result ≤ length z.now }
{
    if byte(z, 0) == b'0' {
        1
    } else {
        run_of_digits(z)
    }
}

fn int_len(z: &[u8]) -> usize
    ensures value { result ≡ spec.int_len z.now }
    ensures within { result ≤ length z.now }
{
    if byte(z, 0) != b'-' {
        return digits_len(z);
    }
    let len = digits_len(&z[1..]);
    if len == 0 { 0 } else { len + 1 }
}

fn int(z: &[u8]) -> Front
    ensures value { meaning result ≡ spec.int z.now }
    ensures within { IsWithin (length z.now) result }
{
    let len = int_len(z);
    let next = byte(z, len);
    if len == 0 || is_in_name(next) || next == b'.' {
        Front::Bad
    } else {
        Front::Found(TokenKind::Int, len)
    }
}

fn dots(z: &[u8]) -> Front
    ensures value { meaning result ≡ spec.dots z.now }
    ensures within { IsWithin (length z.now) result }
{
    if byte(z, 1) == b'.' && byte(z, 2) == b'.' {
        Front::Found(TokenKind::Spread, 3)
    } else {
        Front::Bad
    }
}

fn string(z: &[u8]) -> Front
    requires { 0 < length z.now }
    ensures value { meaning result ≡ spec.string z.now }
    ensures within { IsWithin (length z.now) result }
{
    if byte(z, 1) == b'"' && byte(z, 2) == b'"' {
        return Front::Bad;
    }
    match closed_len(&z[1..]) {
        None => Front::Bad,
        Some(len) => Front::Found(TokenKind::Text, len + 1),
    }
}

/// What the text begins with.
#[tactic(auto, unfolding(request_model::specs::Lexemes::front))]
pub fn front_of(z: &[u8]) -> Front
    requires { 0 < length z.now }
    ensures value { meaning result ≡ spec.front z.now }
    ensures within { IsWithin (length z.now) result }
{
    let b = z[0];
    if is_blank(b) {
        Front::Ignored(1)
    } else if b == b'#' {
        Front::Ignored(1 + line_len(&z[1..]))
    } else if is_mark(z) {
        Front::Ignored(3)
    } else if is_punct(b) {
        Front::Found(TokenKind::Punct(b), 1)
    } else if b == b'.' {
        dots(z)
    } else if starts_name(b) {
        Front::Found(TokenKind::Name, name_len(z))
    } else if b == b'"' {
        string(z)
    } else {
        int(z)
    }
}
