//! What scalars give in the types of variables.

ghost use Rattle.std.specs.Prelude.{◌≡◌, ◌∷◌, [], IfOk, option_and_then};
ghost use Rattle.scalar_val.specs.Spellings.{fitted};
ghost use Rattle.query_model.specs.Names.{null_or_fitted};
ghost use Rattle.query_model.specs.Variables.{as_list, item_value, null_unless, single_value};

use plan_model::{Slot, ValList};
use query_model::{FaultKind, VarType};
use scalar_val::{Kind, NoMemory, ReadFault, Val, fit_scalar};
use std::alloc::Global;

fn fit(alloc: Global, kind: Kind, scalar: &Val) -> Result<Option<Val>, NoMemory>
    ensures { IfOk result (λ found. found ≡ fitted kind scalar.now) }
{
    match fit_scalar(alloc, kind, scalar) {
        Ok(val) => Ok(Some(val)),
        Err(ReadFault::BadValue) => Ok(None),
        Err(ReadFault::NoMemory) => Err(NoMemory),
    }
}

/// What a scalar is in a kind, and none where it doesn't fit. A text of the kind of texts is moved and not copied.
fn fitted(alloc: Global, kind: Kind, scalar: Val) -> Result<Option<Val>, NoMemory>
    ensures { IfOk result (λ found. found ≡ fitted kind scalar) }
{
    match (kind, scalar) {
        (Kind::Text, Val::Text(text)) => Ok(Some(Val::Text(text))),
        (kind, scalar) => fit(alloc, kind, &scalar),
    }
}

/// The same, where null stands for itself.
pub(crate) fn null_or_fitted(
    alloc: Global,
    kind: Kind,
    scalar: Val,
) -> Result<Option<Val>, NoMemory>
    ensures { IfOk result (λ found. found ≡ null_or_fitted kind scalar) }
{
    if scalar.is_null() {
        return Ok(Some(Val::Null));
    }
    fitted(alloc, kind, scalar)
}

fn item_of(alloc: Global, type_: VarType, scalar: Val) -> Result<Option<Val>, NoMemory>
    ensures { IfOk result (λ found. found ≡ item_value type_ scalar) }
{
    if scalar.is_null() && type_.strict_item {
        return Ok(None);
    }
    null_or_fitted(alloc, type_.kind, scalar)
}

/// What an item is in a list of a type, and none where it may not stand there.
pub(crate) fn item_value(
    alloc: Global,
    type_: VarType,
    scalar: Option<Val>,
) -> Result<Option<Val>, NoMemory>
    ensures { IfOk result (λ found. found ≡ option_and_then (item_value type_) scalar) }
{
    match scalar {
        Some(scalar) => item_of(alloc, type_, scalar),
        None => Ok(None),
    }
}

fn null_unless(strict: bool) -> Result<Slot, FaultKind>
    ensures { result ≡ null_unless strict }
{
    if strict {
        return Err(FaultKind::MissingVariable);
    }
    Ok(Slot::One(Val::Null))
}

fn as_list(alloc: Global, listed: bool, val: Val) -> Result<Slot, NoMemory>
    ensures { IfOk result (λ slot. slot ≡ as_list listed val) }
{
    if !listed {
        return Ok(Slot::One(val));
    }
    let mut vals = ValList::new(alloc);
    vals.add(val)?;
    Ok(Slot::Many(vals))
}

fn single_of(
    alloc: Global,
    type_: VarType,
    scalar: Val,
) -> Result<Result<Slot, FaultKind>, NoMemory>
    ensures { IfOk result (λ value. value ≡ single_value type_ (Some scalar)) }
{
    if scalar.is_null() {
        return Ok(null_unless(type_.strict));
    }
    match fitted(alloc, type_.kind, scalar)? {
        Some(val) => Ok(Ok(as_list(alloc, type_.listed, val)?)),
        None => Ok(Err(FaultKind::WrongType)),
    }
}

/// The value of a variable that is given as one value, or why it isn't one.
pub(crate) fn single_value(
    alloc: Global,
    type_: VarType,
    scalar: Option<Val>,
) -> Result<Result<Slot, FaultKind>, NoMemory>
    ensures { IfOk result (λ value. value ≡ single_value type_ scalar) }
{
    match scalar {
        Some(scalar) => single_of(alloc, type_, scalar),
        None => Ok(Err(FaultKind::WrongType)),
    }
}
