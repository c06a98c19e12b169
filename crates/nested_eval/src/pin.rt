//! Comparisons that each row meets which a selection shows.
ghost use Rattle.std.specs.Prelude.{◌≡◌, true, IfSome};
ghost use Rattle.std.specs.Option.{option_copied};
ghost use Rattle.data_model.specs.Rows.{Row};
ghost use Rattle.plan_model.specs.declared.filter.Binding.{Binding};
ghost use Rattle.plan_model.specs.Planned.{passes};
ghost use Rattle.plan_model.specs.Taken.{joins};
ghost use Rattle.plan_model.specs.Truth.{is_yes, truth_of};
ghost use Rattle.plan_model.specs.Values.{one_value, operand_value};
ghost use Rattle.nested_eval.specs.Pins.{parts_say, origin_value, meets_pin, meets_pin_if, Pinned};
ghost use Rattle.row_lookup.specs.Comparing.{meets_if};

use plan_core::{Binding, Filter, Op, Operand, Select, Shape, Slot};
use row_lookup::Comparison;
use scalar_val::Val;

/// Where the value of a comparison comes from: a column of the parent's row, an operand of a condition, or the cursor.
#[derive(Clone, Copy)]
pub(crate) enum Origin<'a> {
    Parent(u32),
    Operand(&'a Operand),
    Cursor,
}

/// A column, and how its value compares with another.
#[derive(Clone, Copy)]
pub(crate) struct Pin<'a> {
    pub(crate) column: u32,
    pub(crate) op: Op,
    pub(crate) origin: Origin<'a>,
}

/// Which pin is looked for: one in the column by which the rows ascend, or an equality in another column.
#[derive(Clone, Copy)]
pub(crate) enum Wish {
    EqualIn(u32),
    RangeIn(u32),
    EqualBut(Option<u32>),
}

fn is_equality(op: Op) -> bool {
    match op {
        Op::Eq => true,
        _ => false,
    }
}

fn suits(wish: Wish, column: u32, op: Op) -> bool {
    match wish {
        Wish::EqualIn(key) => column == key && is_equality(op),
        Wish::RangeIn(key) => column == key && op != Op::Neq,
        Wish::EqualBut(Some(key)) => column != key && is_equality(op),
        Wish::EqualBut(None) => is_equality(op),
    }
}

fn if_suits<'a>(wish: Wish, pin: Pin<'a>) -> Option<Pin<'a>>
    ensures { IfSome result (λ found. found ≡ pin.entry) }
{
    if suits(wish, pin.column, pin.op) {
        Some(pin)
    } else {
        None
    }
}

fn pin_of_join<'a>(wish: Wish, from: &'a [u32], to: &'a [u32]) -> Option<Pin<'a>>
    ensures { IfSome result (λ pin. (b : Binding) (parent row : Row) → joins from.now to.now parent row ≡ true → meets_pin b parent pin row ≡ true) }
{
    let [from, ..] = from else {
        return None;
    };
    let [to, ..] = to else {
        return None;
    };
    let pin = Pin {
        column: *to,
        op: Op::Eq,
        origin: Origin::Parent(*from),
    };
    if_suits(wish, pin)
}

fn pin_of_shape<'a>(wish: Wish, shape: &'a Shape) -> Option<Pin<'a>>
    ensures { IfSome result (λ pin. (b : Binding) (parent row : Row) → passes b shape.now row ≡ true → meets_pin b parent pin row ≡ true) }
{
    match shape {
        Shape::Stream {
            column,
            descending,
            ..
        } => {
            let op = if *descending { Op::Lt } else { Op::Gt };
            let pin = Pin {
                column: *column,
                op,
                origin: Origin::Cursor,
            };
            if_suits(wish, pin)
        }
        _ => None,
    }
}

/// A comparison among those that all have to hold.
#[cycle(pin)]
#[tactic(auto, using(plan_model::proofs::Truths::truths))]
fn pin_of_filter<'a>(filter: &'a Filter, wish: Wish) -> Option<Pin<'a>>
    ensures { IfSome result (λ pin. (b : Binding) (parent row : Row) → is_yes (truth_of b filter.now row) ≡ true → meets_pin b parent pin row ≡ true) }
{
    match filter {
        Filter::And(parts) => pin_of_parts(parts.as_slice(), wish),
        Filter::Cmp {
            column,
            op,
            operand,
        } => {
            let pin = Pin {
                column: *column,
                op: *op,
                origin: Origin::Operand(operand),
            };
            if_suits(wish, pin)
        }
        _ => None,
    }
}

#[cycle(pin)]
fn pin_of_parts<'a>(parts: &'a [Filter], wish: Wish) -> Option<Pin<'a>>
    ensures { IfSome result (λ pin. (b : Binding) (parent row : Row) → is_yes (parts_say b row parts.now) ≡ true → meets_pin b parent pin row ≡ true) }
{
    for part in parts {
        if let Some(pin) = pin_of_filter(part, wish) {
            return Some(pin);
        }
    }
    None
}

fn pin_of<'a>(select: &'a Select, from: &'a [u32], to: &'a [u32], wish: Wish) -> Option<Pin<'a>>
    ensures { IfSome result (Pinned select.now from.now to.now) }
{
    if let Some(pin) = pin_of_join(wish, from, to) {
        return Some(pin);
    }
    if let Some(pin) = pin_of_filter(&select.filter, wish) {
        return Some(pin);
    }
    pin_of_shape(wish, &select.shape)
}

/// A comparison in the column by which the rows ascend.
pub(crate) fn pin_by_key<'a>(
    select: &'a Select,
    from: &'a [u32],
    to: &'a [u32],
    key: Option<u32>,
) -> Option<Pin<'a>>
    ensures { IfSome result (Pinned select.now from.now to.now) }
{
    let Some(column) = key else {
        return None;
    };
    match pin_of(select, from, to, Wish::EqualIn(column)) {
        Some(pin) => Some(pin),
        None => pin_of(select, from, to, Wish::RangeIn(column)),
    }
}

fn has_equality(pin: &Option<Pin<'_>>) -> bool {
    match pin {
        Some(pin) => is_equality(pin.op),
        None => false,
    }
}

/// An equality in another column, where the rows aren't found by one in the column by which they ascend.
pub(crate) fn pin_by_chain<'a>(
    select: &'a Select,
    from: &'a [u32],
    to: &'a [u32],
    key: Option<u32>,
    by_key: &Option<Pin<'a>>,
) -> Option<Pin<'a>>
    ensures { IfSome result (Pinned select.now from.now to.now) }
{
    if has_equality(by_key) {
        return None;
    }
    pin_of(select, from, to, Wish::EqualBut(key))
}

fn one_of<'r>(slot: Option<&'r Slot>) -> Option<&'r Val>
    ensures { IfSome result (λ value. value.now ≡ one_value (option_copied slot.entry)) }
{
    match slot {
        Some(Slot::One(value)) => Some(value),
        _ => None,
    }
}

fn value_of<'r>(operand: &'r Operand, binding: &'r Binding) -> Option<&'r Val>
    ensures { IfSome result (λ value. value.now ≡ operand_value binding.now operand.now) }
{
    match operand {
        Operand::Const(value) => Some(value),
        Operand::Var(slot) => one_of(binding.vars.get(*slot as usize)),
        Operand::Sess(slot) => binding.session.get(*slot as usize),
    }
}

fn value_from<'r>(origin: &Origin<'r>, binding: &'r Binding, parent: &'r [Val]) -> Option<&'r Val>
    ensures { IfSome result (λ value. value.now ≡ origin_value binding.now parent.now origin.now) }
{
    match origin {
        Origin::Parent(column) => parent.get(*column as usize),
        Origin::Operand(operand) => value_of(operand, binding),
        Origin::Cursor => Some(&binding.cursor),
    }
}

/// The comparison of a pin with the value that it has for a binding and a parent's row.
pub(crate) fn compared<'r>(
    pin: &Option<Pin<'r>>,
    binding: &'r Binding,
    parent: &'r [Val],
) -> Option<Comparison<'r>>
    ensures { (row : Row) → meets_pin_if binding.now parent.now pin.now row ≡ true → meets_if result row ≡ true }
{
    let Some(pin) = pin else {
        return None;
    };
    match value_from(&pin.origin, binding, parent) {
        Some(value) => Some(Comparison {
            column: pin.column,
            op: pin.op,
            value,
        }),
        None => None,
    }
}
