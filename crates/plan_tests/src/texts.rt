//! Plans as short texts: conditions that hold together are joined by `&` and others by `|`, a column is its number, `$`
//! comes before the slot of a variable and `@` before that of a session variable. One part is written without brackets.

use plan_model::{Field, Filter, Items, Operand, Plan, Select, Shape};
use scalar_val::{NoMemory, Val};
use std::alloc::Global;

fn put(out: &mut String, text: &str) -> Result<(), NoMemory> {
    out.push_str(text)?;
    Ok(())
}

fn put_number(alloc: Global, out: &mut String, before: &str, number: u32) -> Result<(), NoMemory> {
    put(out, before)?;
    put(out, number.to_string(alloc)?.as_str())
}

fn put_value(alloc: Global, out: &mut String, value: &Val) -> Result<(), NoMemory> {
    match value {
        Val::Null => put(out, "null"),
        Val::Bool(true) => put(out, "true"),
        Val::Int(number) => put(out, number.to_string(alloc)?.as_str()),
        Val::Text(text) => put(out, text.as_str()),
        _ => put(out, "other"),
    }
}

fn put_operand(alloc: Global, out: &mut String, operand: &Operand) -> Result<(), NoMemory> {
    match operand {
        Operand::Const(value) => put_value(alloc, out, value),
        Operand::Var(slot) => put_number(alloc, out, "$", *slot),
        Operand::Sess(slot) => put_number(alloc, out, "@", *slot),
    }
}

fn put_items(alloc: Global, out: &mut String, items: &Items) -> Result<(), NoMemory> {
    match items {
        Items::Each(operands) => {
            for operand in operands.as_slice() {
                put(out, " ")?;
                put_operand(alloc, out, operand)?;
            }
            Ok(())
        }
        Items::Var(slot) => put_number(alloc, out, " $", *slot),
    }
}

#[cycle(filter)]
fn put_parts(
    alloc: Global,
    out: &mut String,
    between: &str,
    parts: &[Filter],
) -> Result<(), NoMemory> {
    if let [part] = parts {
        return put_filter(alloc, out, part);
    }
    put(out, "(")?;
    for (index, part) in parts.iter().enumerate() {
        if index > 0 {
            put(out, between)?;
        }
        put_filter(alloc, out, part)?;
    }
    put(out, ")")
}

#[cycle(filter)]
fn put_filter(alloc: Global, out: &mut String, filter: &Filter) -> Result<(), NoMemory> {
    match filter {
        Filter::And(parts) => put_parts(alloc, out, " & ", parts.as_slice()),
        Filter::Or(parts) => put_parts(alloc, out, " | ", parts.as_slice()),
        Filter::Not(part) => {
            put(out, "not ")?;
            put_filter(alloc, out, part.get())
        }
        Filter::Cmp {
            column,
            operand,
            ..
        } => {
            put_number(alloc, out, "", *column)?;
            put(out, "=")?;
            put_operand(alloc, out, operand)
        }
        Filter::Among { column, items, .. } => {
            put_number(alloc, out, "", *column)?;
            put(out, " in")?;
            put_items(alloc, out, items)
        }
        Filter::IsNull { column, .. } => put_number(alloc, out, "null ", *column),
    }
}

fn put_shape(alloc: Global, out: &mut String, shape: &Shape) -> Result<(), NoMemory> {
    match shape {
        Shape::List => put(out, " list "),
        Shape::One => put(out, " one "),
        Shape::Stream {
            column,
            descending,
            batch,
        } => {
            put_number(alloc, out, " stream ", *column)?;
            put(out, if *descending { " down " } else { " up " })?;
            put_operand(alloc, out, batch)?;
            put(out, " ")
        }
    }
}

fn put_limit(
    alloc: Global,
    out: &mut String,
    before: &str,
    limit: &Option<Operand>,
) -> Result<(), NoMemory> {
    match limit {
        Some(operand) => {
            put(out, before)?;
            put_operand(alloc, out, operand)
        }
        None => Ok(()),
    }
}

fn put_cuts(alloc: Global, out: &mut String, select: &Select) -> Result<(), NoMemory> {
    for order in select.order.as_slice() {
        put_number(alloc, out, " by ", order.column)?;
    }
    put_limit(alloc, out, " limit ", &select.limit)?;
    put_limit(alloc, out, " offset ", &select.offset)?;
    match select.cap {
        Some(cap) => put_number(alloc, out, " cap ", cap),
        None => Ok(()),
    }
}

#[cycle(select)]
fn put_select(alloc: Global, out: &mut String, select: &Select) -> Result<(), NoMemory> {
    put_number(alloc, out, "", select.table)?;
    put_shape(alloc, out, &select.shape)?;
    put_filter(alloc, out, &select.filter)?;
    put_cuts(alloc, out, select)?;
    put(out, " {")?;
    put_fields(alloc, out, select.fields.as_slice())?;
    put(out, " }")
}

#[cycle(select)]
fn put_fields(alloc: Global, out: &mut String, fields: &[Field]) -> Result<(), NoMemory> {
    for field in fields {
        put(out, " ")?;
        put_field(alloc, out, field)?;
    }
    Ok(())
}

fn put_columns(alloc: Global, out: &mut String, columns: &[u32]) -> Result<(), NoMemory> {
    for column in columns {
        put_number(alloc, out, " ", *column)?;
    }
    Ok(())
}

#[cycle(select)]
fn put_field(alloc: Global, out: &mut String, field: &Field) -> Result<(), NoMemory> {
    match field {
        Field::Typename { key } => put(out, key.as_str()),
        Field::Column { key, column } => {
            put(out, key.as_str())?;
            put_number(alloc, out, ":", *column)
        }
        Field::Link {
            key,
            from,
            to,
            select,
        } => {
            put(out, key.as_str())?;
            put_columns(alloc, out, from.as_slice())?;
            put(out, " =")?;
            put_columns(alloc, out, to.as_slice())?;
            put(out, " ")?;
            put_select(alloc, out, select.get())
        }
    }
}

/// A plan, without the names of the tables.
pub(crate) fn plan_text(alloc: Global, plan: &Plan) -> Result<String, NoMemory> {
    let mut out = String::new(alloc);
    put(&mut out, plan.key.as_str())?;
    put(&mut out, " ")?;
    put_select(alloc, &mut out, &plan.root)?;
    Ok(out)
}
