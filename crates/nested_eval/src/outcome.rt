ghost use Rattle.std.specs.Prelude.{◌≡◌, ◌++◌, ◌∷◌, ◌+◌, ◌≤◌, ◌<◌, [], length, IsTrue, IfOk, OnOk};
ghost use Rattle.scalar_val.specs.Values.{cell};
ghost use Rattle.plan_model.specs.declared.filter.Binding.{Binding};
ghost use Rattle.plan_model.specs.Outcomes.{last_row, last_value};
ghost use Rattle.plan_model.specs.Planned.{extent, planned};
ghost use Rattle.plan_model.specs.PlanFits.{PlanFits};
ghost use Rattle.plan_model.specs.BindingFits.{BindingFits};
ghost use Rattle.plan_model.specs.Reads.{reads};
ghost use Rattle.nested_eval.specs.Seen.{seen};
ghost use Rattle.nested_eval.specs.Nodes.{node_text, node_ready};
ghost use Rattle.nested_eval.specs.Plans.{head_text};
ghost use Rattle.nested_eval.specs.Sources.{taken_below};

use crate::cut::trimmed;
use crate::node::Node;
use crate::prepare::{node_of, put_key};
use crate::write::{append, put_list, put_one};
use json_out::Outcome;
use plan_core::{Binding, Plan, Select, Shape};
use row_store::{Row, Snapshot};
use scalar_val::{Bytes, NoMemory, Steps, Val, cell, copy_val};
use std::alloc::Global;
use std::marker::{Brand, Model};
use std::sync::ledger::{Blank, Ledger};

/// A plan that fits a snapshot's catalog, whose tables were read from the snapshot. Contracts see the plan and the snapshot.
#[derive(Drop)]
pub struct PreparedPlan<'a> {
    plan: &'a Plan,
    snapshot: &'a Snapshot,
    head: Bytes,
    root: Node<'a>,
}

impl<'a> Model for PreparedPlan<'a> {
    ghost use Rattle.std.specs.Coded.{codes};
    ghost use Rattle.plan_model.specs.contracts.filter.Filter as filter;
    ghost use Rattle.plan_model.specs.contracts.plan.Field as field;
    ghost use Rattle.nested_eval.specs.Plans.{Prepared, prepared, IsPrepared};

    ghost Value = { Prepared };

    ghost coded = { Prim.hlevel (codes, filter.the_row.coded, field.the_row.coded) };

    ghost view = { prepared };

    ghost invariant = { IsPrepared };
}

/// How many rows an answer has, and where a stream stands after them, else null.
#[derive(Drop)]
struct Answer {
    rows: u64,
    last: Val,
}

fn cell_of_last(alloc: Global, column: u32, rows: &[&Row]) -> Result<Val, NoMemory>
    ensures { IfOk result (λ value. value ≡ cell (last_row (seen rows.now)) column) }
{
    let null = Val::Null;
    match rows.last() {
        Some(row) => copy_val(alloc, cell(row.cells(), column, &null)),
        None => Ok(Val::Null),
    }
}

fn last_value(alloc: Global, select: &Select, rows: &[&Row]) -> Result<Val, NoMemory>
    ensures { IfOk result (λ value. (b : Binding) → value ≡ last_value (extent b select.now) (seen rows.now)) }
{
    match &select.shape {
        Shape::Stream { column, .. } => cell_of_last(alloc, *column, rows),
        _ => Ok(Val::Null),
    }
}

/// What the root gives.
fn put_root(
    alloc: Global,
    binding: &Binding,
    root: &Node<'_>,
    out: &mut Vec<u8>,
) -> Result<Answer, NoMemory>
    requires { IsTrue (node_ready binding.now root.now) }
    ensures text { OnOk result (out.new.items ≡ out.old.items ++ node_text binding.now root.now []) }
    ensures rows { IfOk result (λ a. a.rows ≡ length (taken_below binding.now root.now.source [])) }
    ensures last { IfOk result (λ a. a.last ≡ last_value (extent binding.now root.now.source.select) (taken_below binding.now root.now.source [])) }
{
    let source = &root.source;
    let select = source.select();
    let parts = root.parts.as_slice();
    match &select.shape {
        Shape::One => {
            let first = source.first_shown(binding, &[]);
            put_one(alloc, binding, parts, first, out)?;
            Ok(Answer {
                rows: u64::from(first.is_some()),
                last: Val::Null,
            })
        }
        _ => {
            let arranged = source.arranged(alloc, binding, &[])?;
            let rows = trimmed(select, binding, arranged.as_slice());
            put_list(alloc, binding, parts, rows, out)?;
            let last = last_value(alloc, select, rows)?;
            Ok(Answer {
                rows: rows.len() as u64,
                last,
            })
        }
    }
}

/// A payload up to the value of a key.
fn head_of(alloc: Global, key: &str) -> Result<Bytes, NoMemory>
    ensures { IfOk result (λ text. text ≡ head_text key.now) }
{
    let mut text = Vec::new(alloc);
    text.push(b'{')?;
    put_key("data", &mut text)?;
    text.push(b'{')?;
    put_key(key, &mut text)?;
    Ok(Bytes::of(text))
}

fn end_of(alloc: Global, buffer: &mut Vec<u8>) -> Result<Bytes, NoMemory>
    ensures { IfOk result (λ text. text ≡ buffer.old.items ++ 125 ∷ 125 ∷ []) }
{
    append(b"}}", buffer)?;
    Ok(Bytes::of(Vec::from_slice(alloc, buffer.as_slice())?))
}

impl<'a> PreparedPlan<'a> {
    /// Reads the tables of a plan that fits the snapshot's catalog, once for each selection that names them: a step for
    /// each of their rows. The only failure is want of memory.
    pub fn of<L: Ledger>(
        alloc: Global,
        plan: &'a Plan,
        snapshot: &'a Snapshot,
        steps: &mut Steps<L>,
    ) -> Result<PreparedPlan<'a>, NoMemory>
        requires { PlanFits snapshot.now.catalog plan.now }
        ensures plan { IfOk result (λ prepared. prepared.plan ≡ plan.now) }
        ensures snapshot { IfOk result (λ prepared. prepared.snapshot ≡ snapshot.now) }
        ensures steps { steps.new ≤ steps.old + reads plan.now snapshot.now.tables }
    {
        let head = head_of(alloc, plan.key.as_str())?;
        let names = plan.names.as_slice();
        let root = node_of(alloc, names, snapshot, &plan.root, true, &[], &[], steps)?;
        Ok(PreparedPlan {
            plan,
            snapshot,
            head,
            root,
        })
    }

    /// The result with a binding that fits the plan: of each selection the rows that join their parent, in order and cut,
    /// and the text of their objects. The buffer is written over. The only failure is want of memory.
    pub fn outcome(
        &self,
        alloc: Global,
        binding: &Binding,
        buffer: &mut Vec<u8>,
    ) -> Result<Outcome, NoMemory>
        requires { BindingFits self.now.plan binding.now }
        ensures { IfOk result (λ outcome. outcome ≡ planned self.now.plan binding.now self.now.snapshot.tables) }
    {
        self.snapshot.fits();
        buffer.clear();
        append(self.head.as_slice(), buffer)?;
        let answer = put_root(alloc, binding, &self.root, buffer)?;
        let text = end_of(alloc, buffer)?;
        Ok(Outcome {
            text,
            rows: answer.rows,
            last: answer.last,
        })
    }
}

/// The result of a plan with a binding on a snapshot: of each selection the rows that join their parent, in order and
/// cut, and the text of their objects. The plan fits the snapshot's catalog, and the binding fits the plan. Each table is
/// read once for each selection that names it, with a step for each row. The only failure is want of memory.
pub fn eval_counted<L: Ledger>(
    alloc: Global,
    plan: &Plan,
    binding: &Binding,
    snapshot: &Snapshot,
    steps: &mut Steps<L>,
) -> Result<Outcome, NoMemory>
    requires plan { PlanFits snapshot.now.catalog plan.now }
    requires binding { BindingFits plan.now binding.now }
    ensures outcome { IfOk result (λ outcome. outcome ≡ planned plan.now binding.now snapshot.now.tables) }
    ensures steps { steps.new ≤ steps.old + reads plan.now snapshot.now.tables }
{
    let prepared = PreparedPlan::of(alloc, plan, snapshot, steps)?;
    let mut buffer = Vec::new(alloc);
    prepared.outcome(alloc, binding, &mut buffer)
}

fn uncounted<L: Ledger>(
    alloc: Global,
    plan: &Plan,
    binding: &Binding,
    snapshot: &Snapshot,
    blank: Blank,
) -> Result<Outcome, NoMemory>
    requires plan { PlanFits snapshot.now.catalog plan.now }
    requires binding { BindingFits plan.now binding.now }
    requires name { blank.name ≡ L.name }
    requires parts { blank.parts ≡ L.parts }
    requires some { 0 < blank.parts }
    ensures { IfOk result (λ outcome. outcome ≡ planned plan.now binding.now snapshot.now.tables) }
{
    let mut steps = Steps::<L>::new(blank);
    eval_counted(alloc, plan, binding, snapshot, &mut steps)
}

/// The same result, where no caller counts the steps.
pub fn eval(
    alloc: Global,
    plan: &Plan,
    binding: &Binding,
    snapshot: &Snapshot,
) -> Result<Outcome, NoMemory>
    requires plan { PlanFits snapshot.now.catalog plan.now }
    requires binding { BindingFits plan.now binding.now }
    ensures { IfOk result (λ outcome. outcome ≡ planned plan.now binding.now snapshot.now.tables) }
{
    uncounted::<Brand>(alloc, plan, binding, snapshot, Blank::new(1))
}
