ghost use Rattle.std.specs.Prelude.{◌≡◌, IfOk};
ghost use Rattle.std.specs.Cmp.{IsTotalOrder};
ghost use Rattle.scalar_val.specs.ValOrder.{rank_of, val_cmp};
ghost use Rattle.scalar_val.specs.Values.{cell, is_null, kind_rank, same_kind};

use crate::text::{NoMemory, Str};
use std::alloc::Global;
use std::cmp::Ordering;

/// The kind of a column: `boolean`, `int`, `bigint`, `text` and `uuid`, in this order.
#[derive(Clone, Copy, Debug, PartialEq, Eq)]
pub enum Kind {
    Bool,
    Int,
    Big,
    Text,
    Uuid,
}

/// The value of a column in one row: null, or a value of a kind.
#[derive(Debug, Drop)]
pub enum Val {
    Null,
    Bool(bool),
    Int(i32),
    Big(i64),
    Text(Str),
    Uuid(u128),
}

impl Val {
    pub fn is_null(&self) -> bool
        ensures { result ≡ is_null self.now }
    {
        match self {
            Val::Null => true,
            _ => false,
        }
    }
}

fn kind_rank(kind: Kind) -> u8
    ensures { result ≡ kind_rank kind }
{
    match kind {
        Kind::Bool => 0,
        Kind::Int => 1,
        Kind::Big => 2,
        Kind::Text => 3,
        Kind::Uuid => 4,
    }
}

/// Whether two kinds are one.
pub fn same_kind(a: Kind, b: Kind) -> bool
    ensures { result ≡ same_kind a b }
{
    kind_rank(a) == kind_rank(b)
}

/// The value at a place of a row, from 0, and null past its end, where `null` is handed back.
pub fn cell<'a>(row: &'a [Val], place: u32, null: &'a Val) -> &'a Val
    requires { null.now ≡ Val.Null }
    ensures { result.now ≡ cell row.now place }
{
    match row.get(place as usize) {
        Some(value) => value,
        None => null,
    }
}

/// The order of values: null first, then by kind, then within the kind: false before true, numbers by size, texts by
/// bytes and identifiers as numbers. It takes no memory.
pub fn cmp(a: &Val, b: &Val) -> Ordering
    ensures { result ≡ val_cmp a.now b.now }
{
    match (a, b) {
        (Val::Bool(x), Val::Bool(y)) => x.cmp(y),
        (Val::Int(x), Val::Int(y)) => x.cmp(y),
        (Val::Big(x), Val::Big(y)) => x.cmp(y),
        (Val::Text(x), Val::Text(y)) => x.as_str().as_bytes().cmp(y.as_str().as_bytes()),
        (Val::Uuid(x), Val::Uuid(y)) => x.cmp(y),
        _ => rank(a).cmp(&rank(b)),
    }
}

fn rank(a: &Val) -> u8
    ensures { result ≡ rank_of a.now }
{
    match a {
        Val::Null => 0,
        Val::Bool(_) => 1,
        Val::Int(_) => 2,
        Val::Big(_) => 3,
        Val::Text(_) => 4,
        Val::Uuid(_) => 5,
    }
}

/// An equal value. It takes memory for a text alone.
pub fn copy_val(alloc: Global, val: &Val) -> Result<Val, NoMemory>
    ensures { IfOk result (λ copy. copy ≡ val.now) }
{
    match val {
        Val::Null => Ok(Val::Null),
        Val::Bool(x) => Ok(Val::Bool(*x)),
        Val::Int(x) => Ok(Val::Int(*x)),
        Val::Big(x) => Ok(Val::Big(*x)),
        Val::Text(x) => Ok(Val::Text(Str::of(alloc, x.as_str())?)),
        Val::Uuid(x) => Ok(Val::Uuid(*x)),
    }
}

/// The order of values is total, and values that it takes for equal are one.
pub fn order_laws()
    ensures total { IsTotalOrder val_cmp }
    ensures exact { (a b : Val) → val_cmp a b ≡ Ordering.Equal → a ≡ b }
{}
