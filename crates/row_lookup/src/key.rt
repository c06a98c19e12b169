//! Rows whose values in a column ascend.
ghost use Rattle.std.specs.Prelude.{◌≡◌, true, false, length};
ghost use Rattle.row_lookup.specs.Ascending.{AscendsIn, is_before, row_before, Parted};
ghost use Rattle.row_lookup.specs.Narrowing.{Narrowed};
ghost use Rattle.row_lookup.specs.Comparing.{meets};

use crate::comparison::Comparison;
use plan_core::Op;
use row_store::Row;
use scalar_val::{Val, cell, cmp};
use std::cmp::Ordering;

/// A column, and a value that the rows' own values in it are compared with: those that are less stand before it, and
/// where `or_equal`, those that equal it too.
#[derive(Clone, Copy)]
pub(crate) struct Bound<'r> {
    pub(crate) column: u32,
    pub(crate) value: &'r Val,
    pub(crate) or_equal: bool,
}

fn is_before(value: &Val, bound: &Val, or_equal: bool) -> bool
    ensures { result ≡ is_before or_equal value.now bound.now }
{
    match cmp(value, bound) {
        Ordering::Less => true,
        Ordering::Equal => or_equal,
        Ordering::Greater => false,
    }
}

fn stands_before(row: &Row, bound: &Bound<'_>) -> bool
    ensures { result ≡ row_before bound.now row.now }
{
    let null = Val::Null;
    let value = cell(row.cells(), bound.column, &null);
    is_before(value, bound.value, bound.or_equal)
}

/// How many rows stand before the bound.
fn searched(rows: &[Row], bound: &Bound<'_>) -> usize
    requires { AscendsIn bound.now.column rows.now }
    ensures { Parted bound.now rows.now result }
{
    let mut low = 0;
    let mut high = rows.len();
    while low < high {
        let middle = low + (high - low) / 2;
        if stands_before(&rows[middle], bound) {
            low = middle + 1;
        } else {
            high = middle;
        }
    }
    low
}

/// Whether just so many rows stand before the bound.
fn are_before(rows: &[Row], bound: &Bound<'_>, count: usize) -> bool
    requires { AscendsIn bound.now.column rows.now }
    ensures { result ≡ true → Parted bound.now rows.now count }
{
    if count >= rows.len() {
        return false;
    }
    if stands_before(&rows[count], bound) {
        return false;
    }
    if count == 0 {
        return true;
    }
    stands_before(&rows[count - 1], bound)
}

/// How far apart two values are, where they are integers.
fn distance(low: &Val, high: &Val) -> usize {
    match (low, high) {
        (Val::Int(low), Val::Int(high)) => high.wrapping_sub(*low).unsigned_abs() as usize,
        (Val::Big(low), Val::Big(high)) => high.wrapping_sub(*low).unsigned_abs() as usize,
        _ => 0,
    }
}

/// Where the bound stands if the values are integers without a gap.
fn guessed(first: &Row, bound: &Bound<'_>) -> usize {
    let null = Val::Null;
    let apart = distance(cell(first.cells(), bound.column, &null), bound.value);
    if bound.or_equal {
        apart.wrapping_add(1)
    } else {
        apart
    }
}

fn is_end(rows: &[Row], bound: &Bound<'_>) -> bool
    requires { AscendsIn bound.now.column rows.now }
    ensures { result ≡ true → Parted bound.now rows.now (length rows.now) }
{
    match rows.last() {
        Some(last) => stands_before(last, bound),
        None => true,
    }
}

/// How many rows stand before the bound: the guess for integers without a gap is tried first.
fn count_before(rows: &[Row], bound: &Bound<'_>) -> usize
    requires { AscendsIn bound.now.column rows.now }
    ensures { Parted bound.now rows.now result }
{
    if is_end(rows, bound) {
        return rows.len();
    }
    let [first, ..] = rows else {
        return 0;
    };
    let guess = guessed(first, bound);
    if are_before(rows, bound, guess) {
        return guess;
    }
    searched(rows, bound)
}

/// The rows that don't stand before the bound.
fn from_bound<'r>(rows: &'r [Row], bound: &Bound<'_>) -> &'r [Row]
    requires { AscendsIn bound.now.column rows.now }
    ensures ascends { AscendsIn bound.now.column result.now }
    ensures rows { Narrowed (λ row. row_before bound.now row ≡ false) rows.now result.now }
{
    &rows[count_before(rows, bound)..]
}

/// The rows that stand before the bound.
fn up_to_bound<'r>(rows: &'r [Row], bound: &Bound<'_>) -> &'r [Row]
    requires { AscendsIn bound.now.column rows.now }
    ensures rows { Narrowed (λ row. row_before bound.now row ≡ true) rows.now result.now }
{
    &rows[..count_before(rows, bound)]
}

/// The rows among which are all that meet a comparison with a value in their column.
pub(crate) fn run_of<'r>(rows: &'r [Row], comparison: &Comparison<'_>) -> &'r [Row]
    requires { AscendsIn comparison.now.column rows.now }
    ensures { Narrowed (λ row. meets comparison.now row ≡ true) rows.now result.now }
{
    if comparison.value.is_null() {
        return &rows[..0];
    }
    let less = Bound {
        column: comparison.column,
        value: comparison.value,
        or_equal: false,
    };
    let not_above = Bound {
        column: comparison.column,
        value: comparison.value,
        or_equal: true,
    };
    match comparison.op {
        Op::Eq => up_to_bound(from_bound(rows, &less), &not_above),
        Op::Gt => from_bound(rows, &not_above),
        Op::Gte => from_bound(rows, &less),
        Op::Lt => up_to_bound(rows, &less),
        Op::Lte => up_to_bound(rows, &not_above),
        Op::Neq => rows,
    }
}
