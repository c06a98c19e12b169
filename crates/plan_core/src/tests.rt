ghost use Rattle.std.specs.Prelude.{◌≡◌, IsTrue, IfOk};
ghost use Rattle.plan_model.specs.declared.filter.Binding.{Binding};
ghost use Rattle.plan_model.specs.FilterFits.{fits};

use crate::{
    Binding, Filter, Items, Op, Operand, OperandList, Plan, Slot, SlotList, TruthValue, ValList,
    copy_binding, truth,
};
use scalar_val::{NoMemory, Str, Val};
use sqlite_items::Boxed;
use std::alloc::Global;
use std::test::Fail;

#[tactic(auto, using(crate::proofs::Examples::comparison_fits))]
fn comparison(op: Op, number: i32) -> Filter
    ensures { (b : Binding) → IsTrue (fits 1 b result) }
{
    Filter::Cmp {
        column: 0,
        op,
        operand: Operand::Const(Val::Int(number)),
    }
}

#[tactic(auto, using(crate::proofs::Examples::null_test_fits))]
fn null_test(want: bool) -> Filter
    ensures { (b : Binding) → IsTrue (fits 1 b result) }
{
    Filter::IsNull {
        column: 0,
        want: Operand::Const(Val::Bool(want)),
    }
}

#[tactic(auto, using(crate::proofs::Examples::among_fits))]
fn among_none(alloc: Global, negated: bool) -> Filter
    ensures { (b : Binding) → IsTrue (fits 1 b result) }
{
    Filter::Among {
        column: 0,
        negated,
        items: Items::Each(OperandList::new(alloc)),
    }
}

#[tactic(auto, using(crate::proofs::Examples::among_fits))]
fn among_one(alloc: Global, negated: bool, number: i32) -> Result<Filter, NoMemory>
    ensures { IfOk result (λ filter. (b : Binding) → IsTrue (fits 1 b filter)) }
{
    let mut operands = OperandList::new(alloc);
    match operands.push(Operand::Const(Val::Int(number))) {
        Ok(()) => Ok(Filter::Among {
            column: 0,
            negated,
            items: Items::Each(operands),
        }),
        Err(_back) => Err(NoMemory),
    }
}

/// What a condition and its negation say of a row of null, and of a row of 1.
#[tactic(auto, using(crate::proofs::Examples::negation_fits))]
fn truths(alloc: Global, filter: Filter) -> Result<[TruthValue; 4], NoMemory>
    requires { (b : Binding) → IsTrue (fits 1 b filter) }
{
    let binding = Binding {
        vars: SlotList::new(alloc),
        session: ValList::new(alloc),
        cursor: Val::Null,
    };
    let of_null = truth(&filter, &[Val::Null], &binding);
    let of_one = truth(&filter, &[Val::Int(1)], &binding);
    let negation = Filter::Not(Boxed::new(alloc, filter)?);
    let not_null = truth(&negation, &[Val::Null], &binding);
    let not_one = truth(&negation, &[Val::Int(1)], &binding);
    Ok([of_null, not_null, of_one, not_one])
}

const YES: TruthValue = TruthValue::Yes;

const NO: TruthValue = TruthValue::No;

const UNKNOWN: TruthValue = TruthValue::Unknown;

fn is_send_and_sync<T: Send + Sync>() {}

#[test]
fn plans_and_bindings_may_be_shared_with_other_threads() {
    is_send_and_sync::<Plan>();
    is_send_and_sync::<Binding>();
}

#[test]
fn a_comparison_with_null_is_unknown_under_a_negation_too(rt: HostRuntime) -> Result<(), Fail> {
    let alloc = rt.alloc();
    for (op, of_one, not_one) in [
        (Op::Eq, YES, NO),
        (Op::Neq, NO, YES),
        (Op::Gte, YES, NO),
        (Op::Lt, NO, YES),
    ] {
        let said = truths(alloc, comparison(op, 1))?;
        assert!(rt; said == [UNKNOWN, UNKNOWN, of_one, not_one]);
    }
    Ok(())
}

#[test]
fn lists_of_values_and_tests_for_null(rt: HostRuntime) -> Result<(), Fail> {
    let alloc = rt.alloc();
    assert!(rt; truths(alloc, among_none(alloc, false))? == [NO, YES, NO, YES]);
    assert!(rt; truths(alloc, among_none(alloc, true))? == [YES, NO, YES, NO]);
    assert!(rt; truths(alloc, among_one(alloc, false, 1)?)? == [UNKNOWN, UNKNOWN, YES, NO]);
    assert!(rt; truths(alloc, among_one(alloc, true, 2)?)? == [UNKNOWN, UNKNOWN, YES, NO]);
    assert!(rt; truths(alloc, null_test(true))? == [YES, NO, NO, YES]);
    assert!(rt; truths(alloc, null_test(false))? == [NO, YES, YES, NO]);
    Ok(())
}

fn vals(alloc: Global, first: Val, second: Val) -> Result<ValList, NoMemory> {
    let mut list = ValList::new(alloc);
    for val in Vec::from_array(alloc, [first, second])? {
        if list.push(val).is_err() {
            return Err(NoMemory);
        }
    }
    Ok(list)
}

fn binding(alloc: Global) -> Result<Binding, NoMemory> {
    let text = Val::Text(Str::of(alloc, "a")?);
    let many = vals(alloc, text, Val::Null)?;
    let mut vars = SlotList::new(alloc);
    for slot in Vec::from_array(alloc, [Slot::One(Val::Uuid(7)), Slot::Many(many)])? {
        if vars.push(slot).is_err() {
            return Err(NoMemory);
        }
    }
    let session = vals(alloc, Val::Bool(true), Val::Int(-3))?;
    Ok(Binding {
        vars,
        session,
        cursor: Val::Big(5),
    })
}

#[test]
fn a_copy_of_a_binding_is_equal(rt: HostRuntime) -> Result<(), Fail> {
    let alloc = rt.alloc();
    let copy = copy_binding(alloc, &binding(alloc)?)?;
    let said = format!(in alloc; "{copy:?}")?;
    let told = format!(in alloc; "{:?}", binding(alloc)?)?;
    assert_eq!(rt; said, told);
    assert!(rt; matches!(copy.cursor, Val::Big(5)));
    Ok(())
}
