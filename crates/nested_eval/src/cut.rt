//! The cut of rows in order.
ghost use Rattle.std.specs.Prelude.{◌≡◌, drop, unwrap_or};
ghost use Rattle.plan_model.specs.Taken.{at_most, trimmed};
ghost use Rattle.plan_model.specs.Planned.{extent};
ghost use Rattle.nested_eval.specs.Seen.{seen};

use crate::values::{number_from, number_if_any};
use plan_core::{Binding, Select, Shape};
use row_store::Row;

fn at_most<'s, T>(count: Option<usize>, items: &'s [T]) -> &'s [T]
    ensures { result.now ≡ at_most count items.now }
{
    match count {
        Some(count) => &items[..count.min(items.len())],
        None => items,
    }
}

fn beyond<'s, T>(count: Option<usize>, items: &'s [T]) -> &'s [T]
    ensures { result.now ≡ drop (unwrap_or count 0) items.now }
{
    match count {
        Some(count) => &items[count.min(items.len())..],
        None => items,
    }
}

fn cap_of(select: &Select) -> Option<usize>
    ensures { result ≡ select.now.cap }
{
    match select.cap {
        Some(cap) => Some(cap as usize),
        None => None,
    }
}

/// The rows that a selection takes of those in its order: past the offset, within the limit, or the first one, or a
/// stream's next; and never more than the permission's limit.
pub(crate) fn trimmed<'s, 'a>(
    select: &Select,
    binding: &Binding,
    rows: &'s [&'a Row],
) -> &'s [&'a Row]
    ensures { seen result.now ≡ trimmed (extent binding.now select.now) select.now.cap (seen rows.now) }
{
    match &select.shape {
        Shape::List => {
            let rest = beyond(number_if_any(&select.offset, binding), rows);
            let within = at_most(number_if_any(&select.limit, binding), rest);
            at_most(cap_of(select), within)
        }
        Shape::One => at_most(Some(1), rows),
        Shape::Stream { batch, .. } => {
            let count = number_from(batch, binding).unwrap_or(0);
            at_most(cap_of(select), at_most(Some(count), rows))
        }
    }
}
