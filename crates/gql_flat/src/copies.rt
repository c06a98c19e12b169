//! Copies of what a flat selection takes over from a document.

ghost use Rattle.std.specs.Prelude.{◌≡◌, IfOk};

use request_model::{
    Directive, DirectiveList, GPair, GPairs, GValue, GValueList, TypeRef, VarDef, VarDefList,
};
use scalar_val::{List, NoMemory, Str};
use sqlite_items::Boxed;
use std::alloc::Global;

pub fn copy_str(alloc: Global, text: &Str) -> Result<Str, NoMemory>
    ensures { IfOk result (λ copy. copy ≡ text.now) }
{
    Str::of(alloc, text.as_str())
}

#[cycle(value)]
fn copy_value(alloc: Global, value: &GValue) -> Result<GValue, NoMemory>
    ensures { IfOk result (λ copy. copy ≡ value.now) }
{
    match value {
        GValue::Var(name) => Ok(GValue::Var(copy_str(alloc, name)?)),
        GValue::Int(digits) => Ok(GValue::Int(copy_str(alloc, digits)?)),
        GValue::Text(text) => Ok(GValue::Text(copy_str(alloc, text)?)),
        GValue::Bool(truth) => Ok(GValue::Bool(*truth)),
        GValue::Null => Ok(GValue::Null),
        GValue::Enum(name) => Ok(GValue::Enum(copy_str(alloc, name)?)),
        GValue::Many(items) => Ok(GValue::Many(copy_values(alloc, items.as_slice())?)),
        GValue::Object(pairs) => Ok(GValue::Object(copy_pairs(alloc, pairs.as_slice())?)),
    }
}

#[cycle(value)]
fn copy_values(alloc: Global, values: &[GValue]) -> Result<GValueList, NoMemory>
    ensures { IfOk result (λ copy. copy ≡ values.now) }
{
    let mut copy = List::new(alloc);
    for value in values {
        copy.add(copy_value(alloc, value)?)?;
    }
    Ok(copy)
}

#[cycle(value)]
fn copy_pair(alloc: Global, pair: &GPair) -> Result<GPair, NoMemory>
    ensures { IfOk result (λ copy. copy ≡ pair.now) }
{
    let name = copy_str(alloc, &pair.name)?;
    let value = copy_value(alloc, &pair.value)?;
    Ok(GPair { name, value })
}

#[cycle(value)]
pub fn copy_pairs(alloc: Global, pairs: &[GPair]) -> Result<GPairs, NoMemory>
    ensures { IfOk result (λ copy. copy ≡ pairs.now) }
{
    let mut copy = List::new(alloc);
    for pair in pairs {
        copy.add(copy_pair(alloc, pair)?)?;
    }
    Ok(copy)
}

fn copy_type(alloc: Global, kind: &TypeRef) -> Result<TypeRef, NoMemory>
    ensures { IfOk result (λ copy. copy ≡ kind.now) }
{
    match kind {
        TypeRef::Named { name, strict } => Ok(TypeRef::Named {
            name: copy_str(alloc, name)?,
            strict: *strict,
        }),
        TypeRef::Listed { item, strict } => {
            let item = copy_type(alloc, item.get())?;
            Ok(TypeRef::Listed {
                item: Boxed::new(alloc, item)?,
                strict: *strict,
            })
        }
    }
}

fn copy_directives(alloc: Global, directives: &DirectiveList) -> Result<DirectiveList, NoMemory>
    ensures { IfOk result (λ copy. copy ≡ directives.now) }
{
    let mut copy = List::new(alloc);
    for directive in directives.as_slice() {
        let name = copy_str(alloc, &directive.name)?;
        let args = copy_pairs(alloc, directive.args.as_slice())?;
        copy.add(Directive { name, args })?;
    }
    Ok(copy)
}

fn copy_default(alloc: Global, default: &Option<GValue>) -> Result<Option<GValue>, NoMemory>
    ensures { IfOk result (λ copy. copy ≡ default.now) }
{
    match default {
        Some(value) => Ok(Some(copy_value(alloc, value)?)),
        None => Ok(None),
    }
}

fn copy_variable(alloc: Global, variable: &VarDef) -> Result<VarDef, NoMemory>
    ensures { IfOk result (λ copy. copy ≡ variable.now) }
{
    let name = copy_str(alloc, &variable.name)?;
    let kind = copy_type(alloc, &variable.kind)?;
    let default = copy_default(alloc, &variable.default)?;
    let directives = copy_directives(alloc, &variable.directives)?;
    Ok(VarDef {
        name,
        kind,
        default,
        directives,
    })
}

pub fn copy_variables(alloc: Global, variables: &[VarDef]) -> Result<VarDefList, NoMemory>
    ensures { IfOk result (λ copy. copy ≡ variables.now) }
{
    let mut copy = List::new(alloc);
    for variable in variables {
        copy.add(copy_variable(alloc, variable)?)?;
    }
    Ok(copy)
}
