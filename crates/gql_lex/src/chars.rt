//! The characters of strings.

ghost use Rattle.std.specs.Prelude.{
  ◌≡◌,
  ◌<◌,
  ◌≤◌,
  ◌-◌,
  ◌^◌,
  length,
  slice_index,
  ◌⊎◌,
  ◌&&◌,
  IfOk,
  IfSome,
  IsSome,
  OnSome,
  true,
  false,
  [],
  ◌++◌,
  drop,
  take,
  encode_utf8,
  string_bytes,
  OnOk,
};
ghost use Rattle.std.specs.Char.{is_ascii_hexdigit, digit_value};
ghost use Rattle.std.specs.List.{prefix_len};
ghost use Rattle.std.specs.Option.{option_map};
ghost use Rattle.request_model.specs.Strings as spec;

use crate::bytes::byte;
use scalar_val::{NoMemory, Str};
use std::alloc::Global;

fn is_plain(b: u8) -> bool
    ensures { result ≡ spec.is_plain b }
{
    !(b == b'"' || b == b'\\') && (b >= 32 || b == 9)
}

/// How many plain characters come first, in bytes.
fn plain_len(z: &[u8]) -> usize
    ensures value { result ≡ prefix_len spec.is_plain z.now }
    ensures within { result ≤ length z.now }
{
    let mut end = 0;
    while end < z.len() && is_plain(z[end]) {
        end += 1;
    }
    end
}

/// The character for which a letter behind a backslash stands.
fn escaped(letter: u8) -> Option<char>
    ensures { result ≡ spec.escaped letter }
{
    if letter == b'"' || letter == b'\\' || letter == b'/' {
        Some(letter as char)
    } else if letter == b'b' {
        Some('\x08')
    } else if letter == b'f' {
        Some('\x0c')
    } else if letter == b'n' {
        Some('\n')
    } else if letter == b'r' {
        Some('\r')
    } else if letter == b't' {
        Some('\t')
    } else {
        None
    }
}

fn digit(b: u8) -> u32
    requires { is_ascii_hexdigit b ≡ true }
    ensures value { result ≡ digit_value b }
    ensures small { result < 16 }
{
    let value = if b <= b'9' {
        b - b'0'
    } else if b <= b'F' {
        b - 55
    } else {
        b - 87
    };
    u32::from(value)
}

fn are_digits(p: u8, q: u8, r: u8, s: u8) -> bool
    ensures value { result ≡ (is_ascii_hexdigit p && is_ascii_hexdigit q && is_ascii_hexdigit r
        && is_ascii_hexdigit s) }
    ensures first { result ≡ true → (is_ascii_hexdigit p ≡ true) × (is_ascii_hexdigit q ≡ true) }
    ensures last { result ≡ true → (is_ascii_hexdigit r ≡ true) × (is_ascii_hexdigit s ≡ true) }
{
    p.is_ascii_hexdigit() && q.is_ascii_hexdigit() && r.is_ascii_hexdigit() && s.is_ascii_hexdigit()
}

/// The number of four hexadecimal digits.
fn hex(z: &[u8]) -> Option<u32>
    ensures value { result ≡ spec.hex z.now }
    ensures small { IfSome result (λ n. n < 2 ^ 16) }
    ensures within { OnSome result (4 ≤ length z.now) }
    ensures ascii { OnSome result (slice_index z.now 3 < 128) }
{
    let [p, q, r, s, ..] = z else {
        return None;
    };
    if are_digits(*p, *q, *r, *s) {
        Some(4096 * digit(*p) + 256 * digit(*q) + 16 * digit(*r) + digit(*s))
    } else {
        None
    }
}

/// The number of a `\u` escape, if one comes first.
fn unit(z: &[u8]) -> Option<u32>
    ensures value { result ≡ spec.unit z.now }
    ensures small { IfSome result (λ n. n < 2 ^ 16) }
    ensures within { OnSome result (6 ≤ length z.now) }
    ensures ascii { OnSome result (slice_index z.now 5 < 128) }
{
    if byte(z, 0) == b'\\' && byte(z, 1) == b'u' {
        hex(&z[2..])
    } else {
        None
    }
}

fn is_high(unit: u32) -> bool
    ensures { result ≡ spec.is_high unit }
{
    0xD800 <= unit && unit <= 0xDBFF
}

fn is_low(unit: u32) -> bool
    ensures { result ≡ spec.is_low unit }
{
    0xDC00 <= unit && unit <= 0xDFFF
}

/// The character of a `\u` escape that is no part of a pair, with its length.
fn single(unit: u32) -> Option<(char, usize)>
    requires { unit < 2 ^ 16 }
    ensures value { result ≡ spec.from_units unit None }
    ensures len { IfSome result (λ c. c.1 ≡ 6) }
{
    if is_high(unit) || is_low(unit) {
        return None;
    }
    let code = char::from_u32(unit)?;
    Some((code, 6))
}

/// The character of a `\u` escape, before which the number of a second one may come, with its length.
fn from_units(unit: u32, next: Option<u32>) -> Option<(char, usize)>
    requires { unit < 2 ^ 16 }
    ensures value { result ≡ spec.from_units unit next }
    ensures len { IfSome result (λ c. (c.1 ≡ 6) ⊎ ((c.1 ≡ 12) × IsSome next)) }
{
    if let Some(low) = next
        && is_high(unit)
        && is_low(low)
    {
        let code = char::from_u32(0x10000 + (unit - 0xD800) * 0x400 + (low - 0xDC00))?;
        return Some((code, 12));
    }
    single(unit)
}

/// The character of the escape that comes first, with its length.
fn escape(z: &[u8]) -> Option<(char, usize)>
    ensures value { result ≡ spec.escape z.now }
    ensures within { IfSome result (λ e. (2 ≤ e.1) × (e.1 ≤ length z.now)) }
    ensures ascii { IfSome result (λ e. slice_index z.now (e.1 - 1) < 128) }
{
    if byte(z, 1) == b'u' {
        let first = unit(z)?;
        return from_units(first, unit(&z[6..]));
    }
    let code = escaped(byte(z, 1))?;
    Some((code, 2))
}

/// The length of the character of a string that comes first.
fn character_len(z: &[u8]) -> Option<usize>
    requires { 0 < length z.now }
    ensures value { result ≡ option_map (λ c. c.1) (spec.character z.now) }
    ensures within { IfSome result (λ n. (1 ≤ n) × (n ≤ length z.now)) }
{
    if is_plain(z[0]) {
        Some(1)
    } else if z[0] == b'\\' {
        let (_, len) = escape(z)?;
        Some(len)
    } else {
        None
    }
}

/// How many bytes there are up to and with the closing quote.
pub fn closed_len(z: &[u8]) -> Option<usize>
    ensures value { result ≡ spec.closed_from 0 z.now }
    ensures within { IfSome result (λ n. (1 ≤ n) × (n ≤ length z.now)) }
{
    let mut at = 0;
    'each: while at < z.len() {
        if z[at] == b'"' {
            return Some(at + 1);
        }
        at += character_len(&z[at..])?;
    }
    None
}

/// The end of the plain characters from a place on.
fn plain_end(z: &[u8], at: usize) -> usize
    requires { at ≤ length z.now }
    ensures text { spec.unescaped_from 0 (drop at z.now) ≡ take (result - at) (drop at z.now)
        ++ spec.unescaped_from 0 (drop result z.now) }
    ensures stops { spec.is_plain (slice_index z.now result) ≡ false }
    ensures ascii { slice_index z.now result < 128 }
    ensures within { (at ≤ result) × (result ≤ length z.now) }
{
    at + plain_len(&z[at..])
}

/// The escape that comes first, with its length.
fn escape_first(z: &[u8]) -> Option<(char, usize)>
    requires { spec.is_plain (slice_index z.now 0) ≡ false }
    ensures none { result ≡ None → spec.unescaped_from 0 z.now ≡ [] }
    ensures some { IfSome result (λ e. spec.unescaped_from 0 z.now ≡ encode_utf8 e.0
        ++ spec.unescaped_from 0 (drop e.1 z.now)) }
    ensures within { IfSome result (λ e. (2 ≤ e.1) × (e.1 ≤ length z.now)) }
    ensures ascii { IfSome result (λ e. slice_index z.now (e.1 - 1) < 128) }
{
    if byte(z, 0) == b'\\' { escape(z) } else { None }
}

/// The escape at a place, with its end.
fn escape_at(z: &[u8], at: usize) -> Option<(char, usize)>
    requires within { at ≤ length z.now }
    requires stops { spec.is_plain (slice_index z.now at) ≡ false }
    ensures none { result ≡ None → spec.unescaped_from 0 (drop at z.now) ≡ [] }
    ensures some { IfSome result (λ e. spec.unescaped_from 0 (drop at z.now)
        ≡ encode_utf8 e.0 ++ spec.unescaped_from 0 (drop e.1 z.now)) }
    ensures within { IfSome result (λ e. (at < e.1) × (e.1 ≤ length z.now)) }
    ensures ascii { IfSome result (λ e. slice_index z.now (e.1 - 1) < 128) }
{
    let (code, len) = escape_first(&z[at..])?;
    Some((code, at + len))
}

fn add_text(out: &mut String, text: &str) -> Result<(), NoMemory>
    ensures { OnOk result (string_bytes out.new ≡ string_bytes out.old ++ text.now) }
{
    out.push_str(text)?;
    Ok(())
}

fn add_char(out: &mut String, code: char) -> Result<(), NoMemory>
    ensures { OnOk result (string_bytes out.new ≡ string_bytes out.old ++ encode_utf8 code) }
{
    out.push(code)?;
    Ok(())
}

/// The text for which the characters of a string stand, given what is written between its quotes: its escapes are read
/// (GraphQL October 2021, section 2.9.4, "String Value").
pub fn unescaped(alloc: Global, text: &str) -> Result<Str, NoMemory>
    ensures { IfOk result (λ s. s ≡ spec.unescaped text.now) }
{
    let bytes = text.as_bytes();
    let mut out = String::new(alloc);
    let mut at = 0;
    'each: while at < bytes.len() {
        let end = plain_end(bytes, at);
        add_text(&mut out, &text[at..end])?;
        let Some((code, next)) = escape_at(bytes, end) else {
            return Ok(Str::from_string(out));
        };
        add_char(&mut out, code)?;
        at = next;
    }
    Ok(Str::from_string(out))
}
