//! The values of literals.

ghost use Rattle.std.specs.Prelude.{◌≡◌, IfOk, option_and_then};
ghost use Rattle.scalar_val.specs.Spellings.{spelled};
ghost use Rattle.query_model.specs.Names.{literal, literal_value, null_or_fitted};

use crate::values::null_or_fitted;
use request_model::GValue;
use scalar_val::{Kind, NoMemory, ReadFault, Str, Val, read_text};
use std::alloc::Global;

fn bigint(alloc: Global, digits: &str) -> Result<Option<Val>, NoMemory>
    ensures { IfOk result (λ found. found ≡ spelled Kind.Big digits.now) }
{
    match read_text(alloc, Kind::Big, digits) {
        Ok(val) => Ok(Some(val)),
        Err(ReadFault::BadValue) => Ok(None),
        Err(ReadFault::NoMemory) => Err(NoMemory),
    }
}

/// The scalar that a literal is, before it is fitted to a kind: null, a boolean, an integer within 64 bits, as a bigint,
/// or a string, as a text. `None` where it is another. `NoMemory` where memory is refused.
pub fn literal(alloc: Global, value: &GValue) -> Result<Option<Val>, NoMemory>
    ensures { IfOk result (λ found. found ≡ literal value.now) }
{
    match value {
        GValue::Null => Ok(Some(Val::Null)),
        GValue::Bool(truth) => Ok(Some(Val::Bool(*truth))),
        GValue::Int(digits) => bigint(alloc, digits.as_str()),
        GValue::Text(text) => Ok(Some(Val::Text(Str::of(alloc, text.as_str())?))),
        _ => Ok(None),
    }
}

fn fitted_literal(alloc: Global, kind: Kind, value: &GValue) -> Result<Option<Val>, NoMemory>
    ensures { IfOk result (λ found. found ≡ option_and_then (null_or_fitted kind) (literal value.now)) }
{
    match literal(alloc, value)? {
        Some(scalar) => null_or_fitted(alloc, kind, scalar),
        None => Ok(None),
    }
}

/// The value of a kind that a literal is, and null where it is none. `NoMemory` where memory is refused.
pub fn literal_value(alloc: Global, kind: Kind, value: &GValue) -> Result<Val, NoMemory>
    ensures { IfOk result (λ val. val ≡ literal_value kind value.now) }
{
    Ok(fitted_literal(alloc, kind, value)?.unwrap_or(Val::Null))
}
