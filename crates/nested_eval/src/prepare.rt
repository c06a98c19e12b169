//! The selections of a plan, with the rows of their tables.
ghost use Rattle.std.specs.Prelude.{◌≡◌, ◌++◌, ◌∷◌, ◌+◌, ◌≤◌, [], ℕ, Bool, map, slice_get, unwrap_or, IsTrue, IfOk, OnOk};
ghost use Rattle.std.specs.List.{list_all, sum};
ghost use Rattle.json.specs.Print.{quoted};
ghost use Rattle.scalar_val.specs.Joined.{named_text};
ghost use Rattle.plan_model.specs.PlanFits.{select_fits};
ghost use Rattle.plan_model.specs.Reads.{select_reads};
ghost use Rattle.nested_eval.specs.Nodes.{PartMeans, PartsMean, NodeMeans};
ghost use Rattle.nested_eval.specs.Plans.{field_fits, field_reads};

use crate::node::{Node, Part, PartList};
use crate::source::Source;
use plan_core::{Field, Select};
use row_store::Snapshot;
use scalar_val::{Bytes, List, NoMemory, Steps, Str, write_quoted};
use sqlite_items::Boxed;
use std::alloc::Global;
use std::sync::ledger::Ledger;

pub(crate) fn put_key(key: &str, out: &mut Vec<u8>) -> Result<(), NoMemory>
    ensures { OnOk result (out.new.items ≡ out.old.items ++ quoted key.now ++ 58 ∷ []) }
{
    write_quoted(key, out)?;
    out.push(b':')?;
    Ok(())
}

fn key_text(alloc: Global, key: &str) -> Result<Bytes, NoMemory>
    ensures { IfOk result (λ text. text ≡ quoted key.now ++ 58 ∷ []) }
{
    let mut text = Vec::new(alloc);
    put_key(key, &mut text)?;
    Ok(Bytes::of(text))
}

fn name_of(names: &[Str], table: u32) -> &str
    ensures { result.now ≡ unwrap_or (slice_get names.now table) [] }
{
    match names.get(table as usize) {
        Some(name) => name.as_str(),
        None => "",
    }
}

fn named(alloc: Global, key: &str, name: &str) -> Result<Bytes, NoMemory>
    ensures { IfOk result (λ text. text ≡ named_text (quoted key.now) (quoted name.now)) }
{
    let mut text = Vec::new(alloc);
    put_key(key, &mut text)?;
    write_quoted(name, &mut text)?;
    Ok(Bytes::of(text))
}

#[cycle(node)]
fn part_of<'a, L: Ledger>(
    alloc: Global,
    names: &'a [Str],
    snapshot: &'a Snapshot,
    field: &'a Field,
    table: u32,
    steps: &mut Steps<L>,
) -> Result<Part<'a>, NoMemory>
    requires { IsTrue (field_fits snapshot.now.catalog field.now table) }
    ensures part { IfOk result (PartMeans names.now snapshot.now.catalog snapshot.now.tables field.now table) }
    ensures steps { steps.new ≤ steps.old + field_reads snapshot.now.tables field.now }
{
    match field {
        Field::Column { key, column } => {
            let key = key_text(alloc, key.as_str())?;
            Ok(Part::Column {
                key,
                column: *column,
            })
        }
        Field::Typename { key } => {
            let text = named(alloc, key.as_str(), name_of(names, table))?;
            Ok(Part::Typename { text })
        }
        Field::Link {
            key,
            from,
            to,
            select,
        } => {
            snapshot.fits();
            let written = key_text(alloc, key.as_str())?;
            let below = node_of(
                alloc,
                names,
                snapshot,
                select.get(),
                false,
                from.as_slice(),
                to.as_slice(),
                steps,
            )?;
            let node = Boxed::new(alloc, below)?;
            Ok(Part::Link { key: written, node })
        }
    }
}

#[cycle(node)]
fn parts_of<'a, L: Ledger>(
    alloc: Global,
    names: &'a [Str],
    snapshot: &'a Snapshot,
    fields: &'a [Field],
    table: u32,
    steps: &mut Steps<L>,
) -> Result<PartList<'a>, NoMemory>
    requires { IsTrue (list_all (λ (f : ℕ → Bool). f table) (map (field_fits snapshot.now.catalog) fields.now)) }
    ensures parts { IfOk result (PartsMean names.now snapshot.now.catalog snapshot.now.tables fields.now table) }
    ensures steps { steps.new ≤ steps.old + sum (map (field_reads snapshot.now.tables) fields.now) }
{
    let mut parts = List::new(alloc);
    for field in fields {
        parts.add(part_of(alloc, names, snapshot, field, table, steps)?)?;
    }
    Ok(parts)
}

/// A selection with the rows of its table and of those of all below it, each of which is read once.
#[cycle(node)]
pub(crate) fn node_of<'a, L: Ledger>(
    alloc: Global,
    names: &'a [Str],
    snapshot: &'a Snapshot,
    select: &'a Select,
    is_root: bool,
    from: &'a [u32],
    to: &'a [u32],
    steps: &mut Steps<L>,
) -> Result<Node<'a>, NoMemory>
    requires { IsTrue (select_fits snapshot.now.catalog select.now is_root to.now) }
    ensures node { IfOk result (NodeMeans names.now snapshot.now.catalog snapshot.now.tables select.now from.now to.now) }
    ensures steps { steps.new ≤ steps.old + select_reads snapshot.now.tables select.now }
{
    snapshot.fits();
    let source = Source::of(alloc, snapshot, select, from, to, steps)?;
    let fields = select.fields.as_slice();
    let parts = parts_of(alloc, names, snapshot, fields, select.table, steps)?;
    Ok(Node { source, parts })
}
