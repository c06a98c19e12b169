//! Values and arguments that are the same.

ghost use Rattle.std.specs.Prelude.{◌≡◌, ◌↔◌, map, IsTrue, IfOk};
ghost use Rattle.request_model.specs.Selection.{by_name};

use crate::ordered::ordered_by_name;
use request_model::{GPair, GValue};
use scalar_val::NoMemory;
use std::alloc::Global;

#[cycle(same)]
fn same_value(a: &GValue, b: &GValue) -> bool
    ensures { IsTrue result ↔ (a.now ≡ b.now) }
{
    match (a, b) {
        (GValue::Var(x), GValue::Var(y)) => x.as_str() == y.as_str(),
        (GValue::Int(x), GValue::Int(y)) => x.as_str() == y.as_str(),
        (GValue::Text(x), GValue::Text(y)) => x.as_str() == y.as_str(),
        (GValue::Bool(x), GValue::Bool(y)) => x == y,
        (GValue::Null, GValue::Null) => true,
        (GValue::Enum(x), GValue::Enum(y)) => x.as_str() == y.as_str(),
        (GValue::Many(x), GValue::Many(y)) => same_values(x.as_slice(), y.as_slice()),
        (GValue::Object(x), GValue::Object(y)) => same_pairs(x.as_slice(), y.as_slice()),
        _ => false,
    }
}

#[cycle(same)]
fn same_values(a: &[GValue], b: &[GValue]) -> bool
    ensures { IsTrue result ↔ (a.now ≡ b.now) }
{
    if a.len() != b.len() {
        return false;
    }
    for (index, x) in a.iter().enumerate() {
        if !same_value(x, &b[index]) {
            return false;
        }
    }
    true
}

#[cycle(same)]
fn same_pair(a: &GPair, b: &GPair) -> bool
    ensures { IsTrue result ↔ (a.now ≡ b.now) }
{
    a.name.as_str() == b.name.as_str() && same_value(&a.value, &b.value)
}

/// Whether the pairs are the same in the order in which they stand.
#[cycle(same)]
pub fn same_pairs(a: &[GPair], b: &[GPair]) -> bool
    ensures { IsTrue result ↔ (a.now ≡ b.now) }
{
    if a.len() != b.len() {
        return false;
    }
    for (index, x) in a.iter().enumerate() {
        if !same_pair(x, &b[index]) {
            return false;
        }
    }
    true
}

pub fn same_refs(a: &[&GPair], b: &[&GPair]) -> bool
    ensures { IsTrue result ↔ (map (λ p. p.now) a.now ≡ map (λ p. p.now) b.now) }
{
    if a.len() != b.len() {
        return false;
    }
    for (index, x) in a.iter().enumerate() {
        if !same_pair(x, b[index]) {
            return false;
        }
    }
    true
}

/// Whether the arguments, once they are ordered by name, are those in order. So a list that is compared with many is
/// ordered once.
pub fn same_ordered(alloc: Global, ordered: &[&GPair], args: &[GPair]) -> Result<bool, NoMemory>
    ensures { IfOk result (λ found. IsTrue found ↔ (map (λ p. p.now) ordered.now ≡ by_name args.now)) }
{
    if ordered.len() != args.len() {
        return Ok(false);
    }
    let other = ordered_by_name(alloc, args)?;
    Ok(same_refs(ordered, other.as_slice()))
}
