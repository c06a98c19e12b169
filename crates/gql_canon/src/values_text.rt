//! The canonical texts of values and arguments.

ghost use Rattle.std.specs.Prelude.{◌≡◌, ◌++◌, [], map, if◌then◌else◌, false, OnOk, string_bytes};
ghost use Rattle.json.specs.Print.{quoted};
ghost use Rattle.request_model.specs.Canonical.{
  value_text,
  pair_text,
  initial_text,
  cursor_pair,
  cursor_object,
  cursor_text,
  argument_text,
};
ghost use Rattle.scalar_val.specs.Joined.{in_brackets, in_braces, parted};
ghost use Rattle.gql_canon.specs.Texts.{initial_pair};

use request_model::{GPair, GValue};
use scalar_val::{NoMemory, write_quoted};
use std::alloc::Global;

pub fn put(out: &mut String, text: &str) -> Result<(), NoMemory>
    ensures { OnOk result (string_bytes out.new ≡ string_bytes out.old ++ text.now) }
{
    out.push_str(text)?;
    Ok(())
}

/// Puts a separator, except in front of the first item.
pub fn put_between(first: &mut bool, separator: &str, out: &mut String) -> Result<(), NoMemory>
    ensures later { OnOk result (first.new ≡ false) }
    ensures put { OnOk result (string_bytes out.new ≡ string_bytes out.old
        ++ (if first.old then [] else separator.now)) }
{
    if *first {
        *first = false;
        return Ok(());
    }
    put(out, separator)
}

/// Puts a string in quotes. A text in quotes is UTF-8, so the bytes of the text are taken and given back with no check.
fn put_string(alloc: Global, text: &str, out: &mut String) -> Result<(), NoMemory>
    ensures { OnOk result (string_bytes out.new ≡ string_bytes out.old ++ quoted text.now) }
{
    let mut bytes = std::mem::replace(out, String::new(alloc)).into_bytes();
    write_quoted(text, &mut bytes)?;
    *out = unsafe { String::from_utf8_unchecked(bytes) };
    Ok(())
}

#[cycle(value)]
fn put_value(alloc: Global, value: &GValue, out: &mut String) -> Result<(), NoMemory>
    ensures { OnOk result (string_bytes out.new ≡ string_bytes out.old ++ value_text value.now) }
{
    match value {
        GValue::Var(name) => {
            put(out, "$")?;
            put(out, name.as_str())
        }
        GValue::Int(digits) => put(out, digits.as_str()),
        GValue::Text(text) => put_string(alloc, text.as_str(), out),
        GValue::Bool(true) => put(out, "true"),
        GValue::Bool(false) => put(out, "false"),
        GValue::Null => put(out, "null"),
        GValue::Enum(name) => put(out, name.as_str()),
        GValue::Many(items) => {
            put(out, "[")?;
            put_values(alloc, items.as_slice(), out)?;
            put(out, "]")
        }
        GValue::Object(pairs) => {
            put(out, "{")?;
            put_pairs(alloc, pairs.as_slice(), out)?;
            put(out, "}")
        }
    }
}

#[cycle(value)]
fn put_values(alloc: Global, values: &[GValue], out: &mut String) -> Result<(), NoMemory>
    ensures { OnOk result (string_bytes out.new ≡ string_bytes out.old ++ parted 44 (map value_text values.now)) }
{
    let mut first = true;
    for value in values {
        put_between(&mut first, ",", out)?;
        put_value(alloc, value, out)?;
    }
    Ok(())
}

#[cycle(value)]
fn put_pair(alloc: Global, pair: &GPair, out: &mut String) -> Result<(), NoMemory>
    ensures { OnOk result (string_bytes out.new ≡ string_bytes out.old ++ pair_text pair.now) }
{
    put(out, pair.name.as_str())?;
    put(out, ":")?;
    put_value(alloc, &pair.value, out)
}

#[cycle(value)]
fn put_pairs(alloc: Global, pairs: &[GPair], out: &mut String) -> Result<(), NoMemory>
    ensures { OnOk result (string_bytes out.new ≡ string_bytes out.old ++ parted 44 (map pair_text pairs.now)) }
{
    let mut first = true;
    for pair in pairs {
        put_between(&mut first, ",", out)?;
        put_pair(alloc, pair, out)?;
    }
    Ok(())
}

fn put_initial_pairs(pairs: &[GPair], out: &mut String) -> Result<(), NoMemory>
    ensures { OnOk result (string_bytes out.new ≡ string_bytes out.old ++ parted 44 (map initial_pair pairs.now)) }
{
    let mut first = true;
    for pair in pairs {
        put_between(&mut first, ",", out)?;
        put(out, pair.name.as_str())?;
        put(out, ":_")?;
    }
    Ok(())
}

fn put_initial(alloc: Global, value: &GValue, out: &mut String) -> Result<(), NoMemory>
    ensures { OnOk result (string_bytes out.new ≡ string_bytes out.old ++ initial_text value.now) }
{
    if let GValue::Object(pairs) = value {
        put(out, "{")?;
        put_initial_pairs(pairs.as_slice(), out)?;
        return put(out, "}");
    }
    put_value(alloc, value, out)
}

fn put_cursor_pair(alloc: Global, pair: &GPair, out: &mut String) -> Result<(), NoMemory>
    ensures { OnOk result (string_bytes out.new ≡ string_bytes out.old ++ cursor_pair pair.now) }
{
    if pair.name.as_str() != "initial_value" {
        return put_pair(alloc, pair, out);
    }
    put(out, pair.name.as_str())?;
    put(out, ":")?;
    put_initial(alloc, &pair.value, out)
}

fn put_cursor_pairs(alloc: Global, pairs: &[GPair], out: &mut String) -> Result<(), NoMemory>
    ensures { OnOk result (string_bytes out.new ≡ string_bytes out.old ++ parted 44 (map cursor_pair pairs.now)) }
{
    let mut first = true;
    for pair in pairs {
        put_between(&mut first, ",", out)?;
        put_cursor_pair(alloc, pair, out)?;
    }
    Ok(())
}

fn put_cursor_object(alloc: Global, value: &GValue, out: &mut String) -> Result<(), NoMemory>
    ensures { OnOk result (string_bytes out.new ≡ string_bytes out.old ++ cursor_object value.now) }
{
    if let GValue::Object(pairs) = value {
        put(out, "{")?;
        put_cursor_pairs(alloc, pairs.as_slice(), out)?;
        return put(out, "}");
    }
    put_value(alloc, value, out)
}

fn put_cursor_objects(alloc: Global, values: &[GValue], out: &mut String) -> Result<(), NoMemory>
    ensures { OnOk result (string_bytes out.new ≡ string_bytes out.old ++ parted 44 (map cursor_object values.now)) }
{
    let mut first = true;
    for value in values {
        put_between(&mut first, ",", out)?;
        put_cursor_object(alloc, value, out)?;
    }
    Ok(())
}

fn put_cursor(alloc: Global, value: &GValue, out: &mut String) -> Result<(), NoMemory>
    ensures { OnOk result (string_bytes out.new ≡ string_bytes out.old ++ cursor_text value.now) }
{
    if let GValue::Many(items) = value {
        put(out, "[")?;
        put_cursor_objects(alloc, items.as_slice(), out)?;
        return put(out, "]");
    }
    put_cursor_object(alloc, value, out)
}

fn put_argument(alloc: Global, pair: &GPair, out: &mut String) -> Result<(), NoMemory>
    ensures { OnOk result (string_bytes out.new ≡ string_bytes out.old ++ argument_text pair.now) }
{
    if pair.name.as_str() != "cursor" {
        return put_pair(alloc, pair, out);
    }
    put(out, pair.name.as_str())?;
    put(out, ":")?;
    put_cursor(alloc, &pair.value, out)
}

pub fn put_arguments(alloc: Global, pairs: &[&GPair], out: &mut String) -> Result<(), NoMemory>
    ensures { OnOk result (string_bytes out.new
        ≡ string_bytes out.old ++ parted 44 (map argument_text (map (λ p. p.now) pairs.now))) }
{
    let mut first = true;
    for pair in pairs {
        put_between(&mut first, ",", out)?;
        put_argument(alloc, pair, out)?;
    }
    Ok(())
}
