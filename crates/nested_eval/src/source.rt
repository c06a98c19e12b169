//! The rows of a table that a selection shows, in its order.
ghost use Rattle.std.specs.Prelude.{◌≡◌, ◌++◌, ◌∷◌, ◌+◌, ◌≤◌, ◌<◌, [], true, length, filter, take, slice_get, if◌then◌else◌, IsTrue, IfOk, OnOk};
ghost use Rattle.data_model.specs.Rows.{Row};
ghost use Rattle.data_model.specs.Transactions.{rows_at};
ghost use Rattle.plan_model.specs.declared.filter.Op.TheVariants.{Eq};
ghost use Rattle.plan_model.specs.FilterFits.{fits};
ghost use Rattle.plan_model.specs.Truth.{is_yes, truth_of, compared};
ghost use Rattle.scalar_val.specs.Values.{cell};
ghost use Rattle.plan_model.specs.Taken.{joins, arranged};
ghost use Rattle.plan_model.specs.Planned.{passes, extent};
ghost use Rattle.row_store.specs.Held.{table_at};
ghost use Rattle.row_lookup.specs.Comparing.{meets_both};
ghost use Rattle.row_lookup.specs.Narrowing.{Narrowed};
ghost use Rattle.nested_eval.specs.Seen.{seen, rows_of};
ghost use Rattle.nested_eval.specs.Sources.{source_of, shown_below, rows_fit};

use crate::order::in_order;
use crate::pin::{Pin, compared, pin_by_chain, pin_by_key};
use crate::values::{is_equal, stands_beyond};
use plan_core::{Binding, Order, Select, Shape, TruthValue, truth};
use row_lookup::{Comparisons, Found, Lookup};
use row_store::{Row, Snapshot};
use scalar_val::{NoMemory, Steps, Val, cell};
use std::alloc::Global;
use std::marker::Model;
use std::sync::ledger::Ledger;

/// The rows of a selection's table, the columns of a parent's row that are to equal columns of theirs, pair by pair, and
/// by which comparisons the rows are found that it shows.
#[derive(Drop)]
pub(crate) struct Source<'a> {
    select: &'a Select,
    from: &'a [u32],
    to: &'a [u32],
    rows: Lookup<'a>,
    by_key: Option<Pin<'a>>,
    by_chain: Option<Pin<'a>>,
}

impl<'a> Model for Source<'a> {
    ghost use Rattle.std.specs.Coded.{codes};
    ghost use Rattle.plan_model.specs.contracts.filter.Filter as filter;
    ghost use Rattle.plan_model.specs.contracts.plan.Field as field;
    ghost use Rattle.nested_eval.specs.Sources.{Sourced, sourced, IsPinned};

    ghost Value = { Sourced };

    ghost coded = { Prim.hlevel (codes, filter.the_row.coded, field.the_row.coded) };

    ghost view = { sourced };

    ghost invariant = { IsPinned };
}

fn agrees(parent: &[Val], from: u32, row: &[Val], to: u32) -> bool
    ensures { result ≡ is_yes (compared Eq (cell row.now to) (cell parent.now from)) }
{
    let null = Val::Null;
    is_equal(cell(row, to, &null), cell(parent, from, &null))
}

fn joins(from: &[u32], to: &[u32], parent: &[Val], row: &[Val]) -> bool
    ensures { result ≡ joins from.now to.now parent.now row.now }
{
    let mut rest = to;
    for column in from {
        let [target, later @ ..] = rest else {
            return false;
        };
        if !agrees(parent, *column, row, *target) {
            return false;
        }
        rest = later;
    }
    rest.is_empty()
}

fn passes(shape: &Shape, binding: &Binding, row: &[Val]) -> bool
    ensures { result ≡ passes binding.now shape.now row.now }
{
    match shape {
        Shape::Stream {
            column,
            descending,
            ..
        } => {
            let null = Val::Null;
            stands_beyond(*descending, &binding.cursor, cell(row, *column, &null))
        }
        _ => true,
    }
}

fn meets(select: &Select, binding: &Binding, row: &[Val]) -> bool
    requires { IsTrue (fits (length row.now) binding.now select.now.filter) }
    ensures { result ≡ is_yes (truth_of binding.now select.now.filter row.now) }
{
    match truth(&select.filter, row, binding) {
        TruthValue::Yes => true,
        _ => false,
    }
}

fn keep<'r>(rows: &mut Vec<&'r Row>, row: &'r Row, is_shown: bool) -> Result<(), NoMemory>
    ensures { OnOk result (seen rows.new.items ≡ seen rows.old.items ++ (if is_shown then row.now ∷ [] else [])) }
{
    if !is_shown {
        return Ok(());
    }
    rows.push(row)?;
    Ok(())
}

fn arrange<'r>(
    select: &Select,
    binding: &Binding,
    rows: Vec<&'r Row>,
) -> Result<Vec<&'r Row>, NoMemory>
    ensures { IfOk result (λ sorted. seen sorted.items ≡ arranged (extent binding.now select.now) (seen rows.entry.items)) }
{
    match &select.shape {
        Shape::List => in_order(rows, select.order.as_slice()),
        Shape::One => Ok(rows),
        Shape::Stream {
            column,
            descending,
            ..
        } => {
            let order = Order {
                column: *column,
                descending: *descending,
                nulls_first: false,
            };
            in_order(rows, &[order])
        }
    }
}

/// All rows of a table, which ascend in the column if there is one.
fn lookup_of<'a, L: Ledger>(
    snapshot: &'a Snapshot,
    table: u32,
    key: Option<u32>,
    steps: &mut Steps<L>,
) -> Lookup<'a>
    requires within { table < length snapshot.now.tables }
    requires key { key ≡ slice_get (table_at snapshot.now table).key 0 }
    ensures rows { result ≡ rows_at snapshot.now.tables table }
    ensures steps { steps.new ≤ steps.old + length (rows_at snapshot.now.tables table) }
{
    snapshot.fits();
    let rows = snapshot.scan(table).rest(steps);
    Lookup::of(rows, key)
}

fn chained_by<'a>(
    alloc: Global,
    lookup: Lookup<'a>,
    pin: &Option<Pin<'_>>,
) -> Result<Lookup<'a>, NoMemory>
    ensures { IfOk result (λ rows. rows ≡ lookup.entry) }
{
    match pin {
        Some(pin) => lookup.chained(alloc, pin.column),
        None => Ok(lookup),
    }
}

impl<'a> Source<'a> {
    /// The rows of a selection's table, all of which are read: a step for each.
    pub(crate) fn of<L: Ledger>(
        alloc: Global,
        snapshot: &'a Snapshot,
        select: &'a Select,
        from: &'a [u32],
        to: &'a [u32],
        steps: &mut Steps<L>,
    ) -> Result<Source<'a>, NoMemory>
        requires { select.now.table < length snapshot.now.tables }
        ensures source { IfOk result (λ source. source ≡ source_of snapshot.now.tables select.now from.now to.now) }
        ensures steps { steps.new ≤ steps.old + length (rows_at snapshot.now.tables select.now.table) }
    {
        let key = snapshot.key_column(select.table);
        let by_key = pin_by_key(select, from, to, key);
        let by_chain = pin_by_chain(select, from, to, key, &by_key);
        let lookup = lookup_of(snapshot, select.table, key, steps);
        let rows = chained_by(alloc, lookup, &by_chain)?;
        Ok(Source {
            select,
            from,
            to,
            rows,
            by_key,
            by_chain,
        })
    }

    pub(crate) fn select(&self) -> &'a Select
        ensures { result.now ≡ self.now.select }
    {
        self.select
    }

    fn is_shown(&self, binding: &Binding, parent: &[Val], row: &[Val]) -> bool
        requires { IsTrue (fits (length row.now) binding.now self.now.select.filter) }
        ensures { result ≡ shown_below binding.now self.now parent.now row.now }
    {
        joins(self.from, self.to, parent, row)
            && meets(self.select, binding, row)
            && passes(&self.select.shape, binding, row)
    }

    fn found<'r>(&'r self, binding: &'r Binding, parent: &'r [Val]) -> Found<'r>
        ensures pinned { (row : Row) → shown_below binding.now self.now parent.now row ≡ true → meets_both result.comparisons row ≡ true }
        ensures rows { Narrowed (λ row. meets_both result.comparisons row ≡ true) self.now.rows result.rows }
    {
        self.rows.found(Comparisons {
            by_key: compared(&self.by_key, binding, parent),
            by_chain: compared(&self.by_chain, binding, parent),
        })
    }

    fn shown<'r>(
        &'r self,
        alloc: Global,
        binding: &'r Binding,
        parent: &'r [Val],
    ) -> Result<Vec<&'r Row>, NoMemory>
        requires { IsTrue (rows_fit binding.now self.now) }
        ensures { IfOk result (λ rows. seen rows.items ≡ filter (shown_below binding.now self.now parent.now) self.now.rows) }
    {
        let mut found = self.found(binding, parent);
        let mut rows = Vec::new(alloc);
        while let Some(row) = found.next() {
            let is_shown = self.is_shown(binding, parent, row.cells());
            keep(&mut rows, row, is_shown)?;
        }
        Ok(rows)
    }

    /// The first row that is shown below a parent's row.
    pub(crate) fn first_shown<'r>(
        &'r self,
        binding: &'r Binding,
        parent: &'r [Val],
    ) -> Option<&'r Row>
        requires { IsTrue (rows_fit binding.now self.now) }
        ensures { rows_of result ≡ take 1 (filter (shown_below binding.now self.now parent.now) self.now.rows) }
    {
        let mut found = self.found(binding, parent);
        while let Some(row) = found.next() {
            if self.is_shown(binding, parent, row.cells()) {
                return Some(row);
            }
        }
        None
    }

    /// The rows that are shown below a parent's row, in the selection's order.
    pub(crate) fn arranged<'r>(
        &'r self,
        alloc: Global,
        binding: &'r Binding,
        parent: &'r [Val],
    ) -> Result<Vec<&'r Row>, NoMemory>
        requires { IsTrue (rows_fit binding.now self.now) }
        ensures { IfOk result (λ rows. seen rows.items ≡
            arranged (extent binding.now self.now.select) (filter (shown_below binding.now self.now parent.now) self.now.rows)) }
    {
        let rows = self.shown(alloc, binding, parent)?;
        arrange(self.select, binding, rows)
    }
}
