//! Rows in order.
ghost use Rattle.std.specs.Prelude.{◌≡◌, map, IfOk};
ghost use Rattle.scalar_val.specs.ValOrder.{val_cmp};
ghost use Rattle.scalar_val.specs.Ordered.{ordered};
ghost use Rattle.plan_model.specs.Taken.{directed, null_cmp, entry_cmp, rows_cmp};
ghost use Rattle.nested_eval.specs.Seen.{seen};

use plan_core::Order;
use row_store::Row;
use scalar_val::{NoMemory, Val, cell, cmp};
use std::cmp::Ordering;

fn compare_values(descending: bool, a: &Val, b: &Val) -> Ordering
    ensures { result ≡ directed descending a.now b.now }
{
    if descending { cmp(b, a) } else { cmp(a, b) }
}

fn nulls_apart(nulls_first: bool, a_is_null: bool, b_is_null: bool, other: Ordering) -> Ordering
    ensures { result ≡ null_cmp nulls_first a_is_null b_is_null other }
{
    match (a_is_null, b_is_null) {
        (true, true) => Ordering::Equal,
        (false, false) => other,
        (a_is_null, _) => {
            if a_is_null == nulls_first {
                Ordering::Less
            } else {
                Ordering::Greater
            }
        }
    }
}

fn compare_entry(order: &Order, a: &[Val], b: &[Val]) -> Ordering
    ensures { result ≡ entry_cmp order.now a.now b.now }
{
    let null = Val::Null;
    let (a, b) = (cell(a, order.column, &null), cell(b, order.column, &null));
    nulls_apart(
        order.nulls_first,
        a.is_null(),
        b.is_null(),
        compare_values(order.descending, a, b),
    )
}

fn compare_rows(orders: &[Order], a: &[Val], b: &[Val]) -> Ordering
    ensures { result ≡ rows_cmp orders.now a.now b.now }
{
    for order in orders {
        match compare_entry(order, a, b) {
            Ordering::Equal => {}
            other => return other,
        }
    }
    Ordering::Equal
}

/// The rows in the order of the entries; rows that tie in all of them stay in their order.
pub(crate) fn in_order<'a>(
    mut rows: Vec<&'a Row>,
    orders: &[Order],
) -> Result<Vec<&'a Row>, NoMemory>
    ensures { IfOk result (λ sorted. seen sorted.items ≡ ordered (rows_cmp orders.now) (seen rows.entry.items)) }
{
    rows.sort_by(|a, b| compare_rows(orders, a.cells(), b.cells()))?;
    Ok(rows)
}
