//! The compact JSON text of what a plan's selections give.
ghost use Rattle.std.specs.Prelude.{◌≡◌, ◌++◌, map, IsTrue, OnOk};
ghost use Rattle.scalar_val.specs.Joined.{parted, in_brackets};
ghost use Rattle.scalar_val.specs.ValText.{val_text};
ghost use Rattle.scalar_val.specs.Values.{cell};
ghost use Rattle.plan_model.specs.Outcomes.{answer_text};
ghost use Rattle.plan_model.specs.Taken.{First};
ghost use Rattle.nested_eval.specs.Seen.{seen, rows_of};
ghost use Rattle.nested_eval.specs.Nodes.{object_of, texts_of, objects_of, part_text, node_text, part_ready, node_ready, parts_ready};

use crate::cut::trimmed;
use crate::node::{Node, Part};
use plan_core::{Binding, Shape};
use row_store::Row;
use scalar_val::{NoMemory, Val, cell, write_json};
use std::alloc::Global;

pub(crate) fn append(bytes: &[u8], out: &mut Vec<u8>) -> Result<(), NoMemory>
    ensures { OnOk result (out.new.items ≡ out.old.items ++ bytes.now) }
{
    out.extend_from_slice(bytes)?;
    Ok(())
}

fn put_cell(row: &Row, column: u32, out: &mut Vec<u8>) -> Result<(), NoMemory>
    ensures { OnOk result (out.new.items ≡ out.old.items ++ val_text (cell row.now column)) }
{
    let null = Val::Null;
    write_json(cell(row.cells(), column, &null), out)
}

#[cycle(part)]
fn put_part(
    alloc: Global,
    binding: &Binding,
    part: &Part<'_>,
    row: &Row,
    out: &mut Vec<u8>,
) -> Result<(), NoMemory>
    requires { IsTrue (part_ready binding.now part.now) }
    ensures { OnOk result (out.new.items ≡ out.old.items ++ part_text binding.now part.now row.now) }
{
    match part {
        Part::Column { key, column } => {
            append(key.as_slice(), out)?;
            put_cell(row, *column, out)
        }
        Part::Typename { text } => append(text.as_slice(), out),
        Part::Link { key, node } => {
            append(key.as_slice(), out)?;
            put_node(alloc, binding, node.get(), row.cells(), out)
        }
    }
}

/// What a selection gives below a parent's row.
#[cycle(part)]
fn put_node(
    alloc: Global,
    binding: &Binding,
    node: &Node<'_>,
    parent: &[Val],
    out: &mut Vec<u8>,
) -> Result<(), NoMemory>
    requires { IsTrue (node_ready binding.now node.now) }
    ensures { OnOk result (out.new.items ≡ out.old.items ++ node_text binding.now node.now parent.now) }
{
    let source = &node.source;
    let select = source.select();
    match &select.shape {
        Shape::One => {
            let first = source.first_shown(binding, parent);
            put_one(alloc, binding, node.parts.as_slice(), first, out)
        }
        _ => {
            let arranged = source.arranged(alloc, binding, parent)?;
            let rows = trimmed(select, binding, arranged.as_slice());
            put_list(alloc, binding, node.parts.as_slice(), rows, out)
        }
    }
}

/// The row's object, or null where there is none.
#[cycle(part)]
pub(crate) fn put_one(
    alloc: Global,
    binding: &Binding,
    parts: &[Part<'_>],
    row: Option<&Row>,
    out: &mut Vec<u8>,
) -> Result<(), NoMemory>
    requires { IsTrue (parts_ready binding.now parts.now) }
    ensures { OnOk result (out.new.items ≡ out.old.items ++ answer_text First (objects_of binding.now parts.now (rows_of row.entry))) }
{
    match row {
        Some(row) => put_object(alloc, binding, parts, row, out),
        None => write_json(&Val::Null, out),
    }
}

/// The list of the rows' objects.
#[cycle(part)]
pub(crate) fn put_list(
    alloc: Global,
    binding: &Binding,
    parts: &[Part<'_>],
    rows: &[&Row],
    out: &mut Vec<u8>,
) -> Result<(), NoMemory>
    requires { IsTrue (parts_ready binding.now parts.now) }
    ensures { OnOk result (out.new.items ≡ out.old.items ++ in_brackets (objects_of binding.now parts.now (seen rows.now))) }
{
    out.push(b'[')?;
    put_objects(alloc, binding, parts, rows, out)?;
    out.push(b']')?;
    Ok(())
}

#[cycle(part)]
fn put_objects(
    alloc: Global,
    binding: &Binding,
    parts: &[Part<'_>],
    rows: &[&Row],
    out: &mut Vec<u8>,
) -> Result<(), NoMemory>
    requires { IsTrue (parts_ready binding.now parts.now) }
    ensures { OnOk result (out.new.items ≡ out.old.items ++ parted 44 (objects_of binding.now parts.now (seen rows.now))) }
{
    let mut first = true;
    for row in rows {
        if first {
            first = false;
        } else {
            out.push(b',')?;
        }
        put_object(alloc, binding, parts, row, out)?;
    }
    Ok(())
}

#[cycle(part)]
fn put_object(
    alloc: Global,
    binding: &Binding,
    parts: &[Part<'_>],
    row: &Row,
    out: &mut Vec<u8>,
) -> Result<(), NoMemory>
    requires { IsTrue (parts_ready binding.now parts.now) }
    ensures { OnOk result (out.new.items ≡ out.old.items ++ object_of (map (part_text binding.now) parts.now) row.now) }
{
    out.push(b'{')?;
    put_parts(alloc, binding, parts, row, out)?;
    out.push(b'}')?;
    Ok(())
}

#[cycle(part)]
fn put_parts(
    alloc: Global,
    binding: &Binding,
    parts: &[Part<'_>],
    row: &Row,
    out: &mut Vec<u8>,
) -> Result<(), NoMemory>
    requires { IsTrue (parts_ready binding.now parts.now) }
    ensures { OnOk result (out.new.items ≡ out.old.items ++ parted 44 (texts_of (map (part_text binding.now) parts.now) row.now)) }
{
    let mut first = true;
    for part in parts {
        if first {
            first = false;
        } else {
            out.push(b',')?;
        }
        put_part(alloc, binding, part, row, out)?;
    }
    Ok(())
}
