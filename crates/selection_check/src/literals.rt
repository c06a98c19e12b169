//! Which literals fit a kind, asked without memory.

ghost use Rattle.std.specs.Prelude.{◌≡◌, ◌==◌, ◌&&◌, not, nat_le, length, if◌then◌else◌, slice_index, is_some};
ghost use Rattle.std.specs.Prelude.{option_map, option_and_then};
ghost use Rattle.std.specs.Str.Parse.{starts_with_minus};
ghost use Rattle.scalar_val.specs.declared.val.Val.TheVariants as val;
ghost use Rattle.scalar_val.specs.Spellings.{fitted, integer_spelled, spelled};
ghost use Rattle.query_model.specs.Names.{literal};

use request_model::GValue;
use scalar_val::Kind;
use uuid::Uuid;

/// Whether a text has no plus sign before it and at most 19 bytes but for a minus sign; `parse` sees to the rest.
fn has_integer_shape(bytes: &[u8]) -> bool
    ensures { result ≡ (not (slice_index bytes.now 0 == 43)
        && nat_le (length bytes.now) (if starts_with_minus bytes.now then 20 else 19)) }
{
    match bytes.first() {
        Some(b'-') => bytes.len() <= 20,
        Some(b'+') => false,
        _ => bytes.len() <= 19,
    }
}

fn read_big(digits: &str) -> Option<i64>
    ensures { result ≡ integer_spelled 63 digits.now }
{
    if !has_integer_shape(digits.as_bytes()) {
        return None;
    }
    digits.parse::<i64>().ok()
}

fn read_int(digits: &str) -> Option<i32>
    ensures { option_map val.Int result
        ≡ option_and_then (fitted Kind.Int) (option_map val.Big (integer_spelled 63 digits.now)) }
{
    match read_big(digits) {
        Some(number) => {
            if i32::MIN as i64 <= number && number <= i32::MAX as i64 {
                Some(number as i32)
            } else {
                None
            }
        }
        None => None,
    }
}

fn spells_uuid(text: &str) -> bool
    ensures { result ≡ is_some (spelled Kind.Uuid text.now) }
{
    match Uuid::parse_str(text) {
        Ok(_) => true,
        Err(_) => false,
    }
}

/// The integer of 32 bits that a value is, where it is one.
pub fn int_literal(value: &GValue) -> Option<i32>
    ensures { option_map val.Int result ≡ option_and_then (fitted Kind.Int) (literal value.now) }
{
    match value {
        GValue::Int(digits) => read_int(digits.as_str()),
        _ => None,
    }
}

/// Whether a value is a literal of a kind. Null is one of none.
pub fn fits(kind: Kind, value: &GValue) -> bool
    ensures { result ≡ is_some (option_and_then (fitted kind) (literal value.now)) }
{
    match (kind, value) {
        (Kind::Bool, GValue::Bool(_)) => true,
        (Kind::Int, GValue::Int(_)) => int_literal(value).is_some(),
        (Kind::Big, GValue::Int(digits)) => read_big(digits.as_str()).is_some(),
        (Kind::Big, GValue::Text(text)) => read_big(text.as_str()).is_some(),
        (Kind::Text, GValue::Text(_)) => true,
        (Kind::Uuid, GValue::Text(text)) => spells_uuid(text.as_str()),
        _ => false,
    }
}
