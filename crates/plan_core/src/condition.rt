ghost use Rattle.std.specs.Prelude.{◌≡◌, ◌<◌, [], ◌∷◌, map, length, slice_get, IsTrue};
ghost use Rattle.std.specs.List.{list_all};
ghost use Rattle.std.specs.Option.{option_copied};
ghost use Rattle.plan_model.specs.Truth.{truth_of, all_of, any_of, among, compared, holds, negated, negated_if, known};
ghost use Rattle.plan_model.specs.Truth.{null_as_wanted};
ghost use Rattle.scalar_val.specs.Values.{cell, is_null};
ghost use Rattle.plan_model.specs.Values.{is_true, operand_value, item_values, one_value};
ghost use Rattle.plan_model.specs.Values.{many_values};
ghost use Rattle.plan_model.specs.FilterFits.{fits, operand_fits, items_fit, itself, is_one, is_many};

use plan_model::{Binding, Filter, Items, Op, Operand, Slot, TruthValue};
use scalar_val::{Val, cmp};

fn both(a: TruthValue, b: TruthValue) -> TruthValue
    ensures { result ≡ all_of (a ∷ b ∷ []) }
{
    match (a, b) {
        (TruthValue::No, _) | (_, TruthValue::No) => TruthValue::No,
        (TruthValue::Yes, TruthValue::Yes) => TruthValue::Yes,
        _ => TruthValue::Unknown,
    }
}

fn either(a: TruthValue, b: TruthValue) -> TruthValue
    ensures { result ≡ any_of (a ∷ b ∷ []) }
{
    match (a, b) {
        (TruthValue::Yes, _) | (_, TruthValue::Yes) => TruthValue::Yes,
        (TruthValue::No, TruthValue::No) => TruthValue::No,
        _ => TruthValue::Unknown,
    }
}

fn negate(a: TruthValue) -> TruthValue
    ensures { result ≡ negated a }
{
    match a {
        TruthValue::Yes => TruthValue::No,
        TruthValue::No => TruthValue::Yes,
        TruthValue::Unknown => TruthValue::Unknown,
    }
}

fn negate_if(negated: bool, a: TruthValue) -> TruthValue
    ensures { result ≡ negated_if negated a }
{
    if negated { negate(a) } else { a }
}

fn known_as(holds: bool) -> TruthValue
    ensures { result ≡ known holds }
{
    if holds {
        TruthValue::Yes
    } else {
        TruthValue::No
    }
}

fn holds(op: Op, cell: &Val, value: &Val) -> bool
    ensures { result ≡ holds op cell.now value.now }
{
    match op {
        Op::Eq => cmp(cell, value).is_eq(),
        Op::Neq => cmp(cell, value).is_ne(),
        Op::Gt => cmp(cell, value).is_gt(),
        Op::Gte => cmp(cell, value).is_ge(),
        Op::Lt => cmp(cell, value).is_lt(),
        Op::Lte => cmp(cell, value).is_le(),
    }
}

fn compare(op: Op, cell: &Val, value: &Val) -> TruthValue
    ensures { result ≡ compared op cell.now value.now }
{
    match (cell, value) {
        (Val::Null, _) | (_, Val::Null) => TruthValue::Unknown,
        _ => known_as(holds(op, cell, value)),
    }
}

fn says_true(value: &Val) -> bool
    ensures { result ≡ is_true value.now }
{
    match value {
        Val::Bool(told) => *told,
        _ => false,
    }
}

fn null_test(cell: &Val, want: &Val) -> TruthValue
    ensures { result ≡ null_as_wanted cell.now want.now }
{
    if cell.is_null() {
        known_as(says_true(want))
    } else {
        known_as(!says_true(want))
    }
}

fn value_in<'a>(slot: Option<&'a Slot>) -> &'a Val
    requires { IsTrue (is_one (option_copied slot)) }
    ensures { result.now ≡ one_value (option_copied slot.entry) }
{
    match slot {
        Some(Slot::One(value)) => value,
        _ => unreachable!(),
    }
}

fn values_in<'a>(slot: Option<&'a Slot>) -> &'a [Val]
    requires { IsTrue (is_many (option_copied slot)) }
    ensures { result.now ≡ many_values (option_copied slot.entry) }
{
    match slot {
        Some(Slot::Many(values)) => values.as_slice(),
        _ => unreachable!(),
    }
}

fn value_of<'a>(operand: &'a Operand, binding: &'a Binding) -> &'a Val
    requires { IsTrue (operand_fits binding.now operand.now) }
    ensures { result.now ≡ operand_value binding.now operand.now }
{
    match operand {
        Operand::Const(value) => value,
        Operand::Var(slot) => value_in(binding.vars.get(*slot as usize)),
        Operand::Sess(slot) => &binding.session.as_slice()[*slot as usize],
    }
}

fn cell_at(cells: &[Val], column: u32) -> &Val
    requires { column < length cells.now }
    ensures { result.now ≡ cell cells.now column }
{
    &cells[column as usize]
}

#[tactic(auto, using(crate::proofs::Truths::parts))]
fn equals_one(cell: &Val, values: &[Val]) -> TruthValue
    ensures { result ≡ among cell.now values.now }
{
    let mut found = TruthValue::No;
    for value in values {
        found = either(found, compare(Op::Eq, cell, value));
        if let TruthValue::Yes = found {
            return TruthValue::Yes;
        }
    }
    found
}

#[tactic(auto, using(crate::proofs::Truths::parts))]
fn equals_operand(cell: &Val, operands: &[Operand], binding: &Binding) -> TruthValue
    requires { IsTrue (list_all (operand_fits binding.now) operands.now) }
    ensures { result ≡ among cell.now (map (operand_value binding.now) operands.now) }
{
    let mut found = TruthValue::No;
    for operand in operands {
        found = either(found, compare(Op::Eq, cell, value_of(operand, binding)));
        if let TruthValue::Yes = found {
            return TruthValue::Yes;
        }
    }
    found
}

fn is_among(cell: &Val, items: &Items, binding: &Binding) -> TruthValue
    requires { IsTrue (items_fit binding.now items.now) }
    ensures { result ≡ among cell.now (item_values binding.now items.now) }
{
    match items {
        Items::Each(operands) => equals_operand(cell, operands.as_slice(), binding),
        Items::Var(slot) => equals_one(cell, values_in(binding.vars.get(*slot as usize))),
    }
}

fn among_test(cell: &Val, negated: bool, items: &Items, binding: &Binding) -> TruthValue
    requires { IsTrue (items_fit binding.now items.now) }
    ensures { result ≡ negated_if negated (among cell.now (item_values binding.now items.now)) }
{
    negate_if(negated, is_among(cell, items, binding))
}

/// Whether a row meets a condition, with the values of a binding. It needs a condition whose columns are the row's,
/// whose slots the binding has and fills as they are used, and whose null tests want a boolean. It takes no memory.
#[cycle(truth)]
#[tactic(auto, using(plan_model::proofs::Truths::truths))]
pub fn truth(filter: &Filter, cells: &[Val], binding: &Binding) -> TruthValue
    requires { IsTrue (fits (length cells.now) binding.now filter.now) }
    ensures { result ≡ truth_of binding.now filter.now cells.now }
{
    match filter {
        Filter::And(parts) => all_hold(parts.as_slice(), cells, binding),
        Filter::Or(parts) => one_holds(parts.as_slice(), cells, binding),
        Filter::Not(part) => negate(truth(part.get(), cells, binding)),
        Filter::Cmp {
            column,
            op,
            operand,
        } => compare(*op, cell_at(cells, *column), value_of(operand, binding)),
        Filter::Among {
            column,
            negated,
            items,
        } => among_test(cell_at(cells, *column), *negated, items, binding),
        Filter::IsNull { column, want } => null_test(
            cell_at(cells, *column),
            value_of(want, binding),
        ),
    }
}

#[cycle(truth)]
#[tactic(auto, using(crate::proofs::Truths::parts))]
fn all_hold(parts: &[Filter], cells: &[Val], binding: &Binding) -> TruthValue
    requires { IsTrue (list_all itself (map (fits (length cells.now) binding.now) parts.now)) }
    ensures { result ≡ all_of (map (λ part. part cells.now) (map (truth_of binding.now) parts.now)) }
{
    let mut found = TruthValue::Yes;
    for part in parts {
        found = both(found, truth(part, cells, binding));
        if let TruthValue::No = found {
            return TruthValue::No;
        }
    }
    found
}

#[cycle(truth)]
#[tactic(auto, using(crate::proofs::Truths::parts))]
fn one_holds(parts: &[Filter], cells: &[Val], binding: &Binding) -> TruthValue
    requires { IsTrue (list_all itself (map (fits (length cells.now) binding.now) parts.now)) }
    ensures { result ≡ any_of (map (λ part. part cells.now) (map (truth_of binding.now) parts.now)) }
{
    let mut found = TruthValue::No;
    for part in parts {
        found = either(found, truth(part, cells, binding));
        if let TruthValue::Yes = found {
            return TruthValue::Yes;
        }
    }
    found
}
