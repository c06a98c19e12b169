ghost use Rattle.std.specs.Prelude.{◌≡◌, ◌==◌, ◌-◌, length, nat_le, not, ◌&&◌, if◌then◌else◌, slice_index, Some, None, option_map, IfOk, IfErr};
ghost use Rattle.std.specs.Str.Parse.{starts_with_minus};
ghost use Rattle.uuid.specs.Text.{parsed};
ghost use Rattle.scalar_val.specs.Spellings.{bool_spelled, fitted, integer_spelled, spelled};

use crate::text::{NoMemory, Str};
use crate::val::{Kind, Val};
use std::alloc::Global;
use uuid::Uuid;

/// Why no value was read: the text or scalar doesn't spell one of the kind, or memory was refused.
#[derive(Clone, Copy, Debug, PartialEq, Eq)]
pub enum ReadFault {
    BadValue,
    NoMemory,
}

/// The value of a kind that a text spells. A boolean is `true` or `false`. An int or a bigint is an optional `-` and 1 to
/// 19 decimal digits, and is within 32 or 64 bits. Every text spells itself. An identifier is in any form that `uuid`
/// reads: 32 hexadecimal digits, alone, hyphenated, and hyphenated in braces or after `urn:uuid:` (RFC 9562, section 4);
/// the digits and this prefix are free in case.
/// `BadValue` comes exactly where the text is none of these; memory is taken for a text alone.
pub fn read_text(alloc: Global, kind: Kind, text: &str) -> Result<Val, ReadFault>
    ensures ok { IfOk result (λ val. spelled kind text.now ≡ Some val) }
    ensures bad { IfErr result (λ fault. fault ≡ ReadFault.BadValue → spelled kind text.now ≡ None) }
{
    match kind {
        Kind::Bool => Ok(Val::Bool(read_bool(text).ok_or(ReadFault::BadValue)?)),
        Kind::Int => Ok(Val::Int(read_int(text).ok_or(ReadFault::BadValue)?)),
        Kind::Big => Ok(Val::Big(read_big(text).ok_or(ReadFault::BadValue)?)),
        Kind::Text => copy_text(alloc, text),
        Kind::Uuid => Ok(Val::Uuid(read_uuid(text).ok_or(ReadFault::BadValue)?)),
    }
}

/// The value of a kind that a JSON scalar gives, where the scalar is a boolean, an integer as a bigint, or a string as a
/// text. A boolean fits `boolean`. An integer fits `bigint`, and `int` within 32 bits. A string fits `text`, and `bigint`
/// and `uuid` where it spells one. `BadValue` comes exactly where it doesn't fit.
pub fn fit_scalar(alloc: Global, kind: Kind, scalar: &Val) -> Result<Val, ReadFault>
    ensures ok { IfOk result (λ val. fitted kind scalar.now ≡ Some val) }
    ensures bad { IfErr result (λ fault. fault ≡ ReadFault.BadValue → fitted kind scalar.now ≡ None) }
{
    match (kind, scalar) {
        (Kind::Bool, Val::Bool(truth)) => Ok(Val::Bool(*truth)),
        (Kind::Int, Val::Big(number)) => fit_int(*number),
        (Kind::Big, Val::Big(number)) => Ok(Val::Big(*number)),
        (Kind::Big, Val::Text(text)) => read_text(alloc, Kind::Big, text.as_str()),
        (Kind::Text, Val::Text(text)) => copy_text(alloc, text.as_str()),
        (Kind::Uuid, Val::Text(text)) => read_text(alloc, Kind::Uuid, text.as_str()),
        _ => Err(ReadFault::BadValue),
    }
}

fn copy_text(alloc: Global, text: &str) -> Result<Val, ReadFault>
    ensures ok { IfOk result (λ val. val ≡ Val.Text text.now) }
    ensures err { IfErr result (λ fault. fault ≡ ReadFault.NoMemory) }
{
    match Str::of(alloc, text) {
        Ok(text) => Ok(Val::Text(text)),
        Err(NoMemory) => Err(ReadFault::NoMemory),
    }
}

fn fit_int(number: i64) -> Result<Val, ReadFault>
    ensures ok { IfOk result (λ val. fitted Kind.Int (Val.Big number) ≡ Some val) }
    ensures bad { IfErr result (λ fault. fitted Kind.Int (Val.Big number) ≡ None) }
{
    if i32::MIN as i64 <= number && number <= i32::MAX as i64 {
        Ok(Val::Int(number as i32))
    } else {
        Err(ReadFault::BadValue)
    }
}

fn read_bool(text: &str) -> Option<bool>
    ensures { result ≡ bool_spelled text.now }
{
    match text {
        "true" => Some(true),
        "false" => Some(false),
        _ => None,
    }
}

fn read_int(text: &str) -> Option<i32>
    ensures { result ≡ integer_spelled 31 text.now }
{
    if !has_integer_shape(text.as_bytes()) {
        return None;
    }
    text.parse::<i32>().ok()
}

fn read_big(text: &str) -> Option<i64>
    ensures { result ≡ integer_spelled 63 text.now }
{
    if !has_integer_shape(text.as_bytes()) {
        return None;
    }
    text.parse::<i64>().ok()
}

/// Whether a text has no plus sign before it and at most 19 bytes but for a minus sign; `parse` sees to the rest.
fn has_integer_shape(bytes: &[u8]) -> bool
    ensures { result ≡ (not (slice_index bytes.now 0 == 43)
        && nat_le (length bytes.now) (if starts_with_minus bytes.now then 20 else 19)) }
{
    match bytes.first() {
        Some(b'-') => bytes.len() <= 20,
        Some(b'+') => false,
        _ => bytes.len() <= 19,
    }
}

fn read_uuid(text: &str) -> Option<u128>
    ensures { option_map Val.Uuid result ≡ spelled Kind.Uuid text.now }
{
    match Uuid::parse_str(text) {
        Ok(uuid) => Some(uuid.as_u128()),
        Err(_) => None,
    }
}
