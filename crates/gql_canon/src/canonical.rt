//! The canonical texts of flat selections.

ghost use Rattle.std.specs.Prelude.{◌≡◌, ◌++◌, map, IfOk, OnOk, string_bytes};
ghost use Rattle.scalar_val.specs.Joined.{parted, named_text};
ghost use Rattle.request_model.specs.Canonical.{
  field_text,
  canonical,
  argument_text,
  in_parentheses,
  set_text,
  word_text,
};
ghost use Rattle.request_model.specs.Selection.{by_name};

use crate::ordered::ordered_by_name;
use crate::values_text::{put, put_arguments, put_between};
use request_model::{Flat, FlatField, GPair, Word};
use scalar_val::{NoMemory, Str};
use std::alloc::Global;

fn put_all_arguments(alloc: Global, args: &[GPair], out: &mut String) -> Result<(), NoMemory>
    ensures { OnOk result (string_bytes out.new
        ≡ string_bytes out.old ++ in_parentheses (map argument_text (by_name args.now))) }
{
    let ordered = ordered_by_name(alloc, args)?;
    if ordered.is_empty() {
        return Ok(());
    }
    put(out, "(")?;
    put_arguments(alloc, ordered.as_slice(), out)?;
    put(out, ")")
}

fn put_named(key: &str, name: &str, out: &mut String) -> Result<(), NoMemory>
    ensures { OnOk result (string_bytes out.new ≡ string_bytes out.old ++ named_text key.now name.now) }
{
    put(out, key)?;
    put(out, ":")?;
    put(out, name)
}

#[cycle(field)]
fn put_field(alloc: Global, field: &FlatField, out: &mut String) -> Result<(), NoMemory>
    ensures { OnOk result (string_bytes out.new ≡ string_bytes out.old ++ field_text field.now) }
{
    put_named(field.key.as_str(), field.name.as_str(), out)?;
    put_all_arguments(alloc, field.args.as_slice(), out)?;
    put_set(alloc, field.nested, field.fields.as_slice(), out)
}

#[cycle(field)]
fn put_set(
    alloc: Global,
    nested: bool,
    fields: &[FlatField],
    out: &mut String,
) -> Result<(), NoMemory>
    ensures { OnOk result (string_bytes out.new ≡ string_bytes out.old ++ set_text nested (map field_text fields.now)) }
{
    if !nested {
        return Ok(());
    }
    put(out, "{")?;
    put_fields(alloc, fields, out)?;
    put(out, "}")
}

#[cycle(field)]
fn put_fields(alloc: Global, fields: &[FlatField], out: &mut String) -> Result<(), NoMemory>
    ensures { OnOk result (string_bytes out.new ≡ string_bytes out.old ++ parted 32 (map field_text fields.now)) }
{
    let mut first = true;
    for field in fields {
        put_between(&mut first, " ", out)?;
        put_field(alloc, field, out)?;
    }
    Ok(())
}

fn word_str(word: Word) -> &'static str
    ensures { result.now ≡ word_text word }
{
    match word {
        Word::Query => "query",
        Word::Subscription => "subscription",
    }
}

/// The canonical text of a flat selection: the word of its operation, and its fields with a space before each. A field
/// is its response key, a colon and its name; then its arguments ordered by name in parentheses, where it has any; then
/// its fields in braces with a space between them, where it has a selection set. In the argument `cursor` each value
/// within `initial_value` is written `_`. So requests that differ in the values of variables or in a stream's beginning
/// alone have one text.
pub fn canon(alloc: Global, flat: &Flat) -> Result<Str, NoMemory>
    ensures { IfOk result (λ text. text ≡ canonical flat.now) }
{
    let mut out = String::new(alloc);
    put(&mut out, word_str(flat.kind))?;
    put(&mut out, " ")?;
    put_fields(alloc, flat.fields.as_slice(), &mut out)?;
    Ok(Str::from_string(out))
}
