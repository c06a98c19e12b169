//! The operations and the fragments of a document.

ghost use Rattle.std.specs.Prelude.{◌≡◌, Some, None, find, IfOk};
ghost use Rattle.std.specs.List.{filter_map};
ghost use Rattle.std.specs.Option.{option_copied};
ghost use Rattle.std.specs.Result.{result_map_both};
ghost use Rattle.request_model.specs.Selection as spec;

use request_model::{Definition, Directive, Document, FlatFault, OpWord, Selection, VarDef};
use scalar_val::{NoMemory, Str};
use std::alloc::Global;
use std::marker::Model;

/// An operation of a document.
#[derive(Drop)]
pub struct Operation<'a> {
    pub word: OpWord,
    pub name: Option<&'a Str>,
    pub vars: &'a [VarDef],
    pub directives: &'a [Directive],
    pub select: &'a [Selection],
}

impl<'a> Model for Operation<'a> {
    ghost use Rattle.std.specs.Option.{option_copied};
    ghost use Rattle.request_model.specs.Selection as spec;
    ghost use Rattle.std.specs.Coded.{codes};
    ghost use Rattle.request_model.specs.contracts.document.GValue as gvalue;
    ghost use Rattle.request_model.specs.contracts.document.GPair as gpair;
    ghost use Rattle.request_model.specs.contracts.document.TypeRef as type_ref;
    ghost use Rattle.request_model.specs.contracts.document.Selection as selection;

    ghost Value = { spec.Operation };

    ghost coded = { Prim.hlevel
        (codes, gvalue.the_row.coded, gpair.the_row.coded, type_ref.the_row.coded, selection.the_row.coded) };

    ghost view = { λ o. record {
      word = o.word;
      name = option_copied
          o.name;
      vars = o.vars.now;
      directives = o.directives.now;
      select = o.select.now;
    } };
}

/// A fragment of a document.
#[derive(Drop)]
pub struct Fragment<'a> {
    pub name: &'a Str,
    pub on: &'a Str,
    pub directives: &'a [Directive],
    pub select: &'a [Selection],
}

impl<'a> Model for Fragment<'a> {
    ghost use Rattle.request_model.specs.Selection as spec;
    ghost use Rattle.std.specs.Coded.{codes};
    ghost use Rattle.request_model.specs.contracts.document.GValue as gvalue;
    ghost use Rattle.request_model.specs.contracts.document.GPair as gpair;
    ghost use Rattle.request_model.specs.contracts.document.Selection as selection;

    ghost Value = { spec.Fragment };

    ghost coded = { Prim.hlevel (codes, gvalue.the_row.coded, gpair.the_row.coded, selection.the_row.coded) };

    ghost view = { λ f. record {
      name = f.name.now;
      on = f.on.now;
      directives = f.directives.now;
      select = f.select.now;
    } };
}

fn operation_of(definition: &Definition) -> Option<Operation<'_>>
    ensures { result ≡ spec.operation_of definition.now }
{
    match definition {
        Definition::Operation {
            word,
            name,
            vars,
            directives,
            select,
        } => Some(Operation {
            word: *word,
            name: name.as_ref(),
            vars: vars.as_slice(),
            directives: directives.as_slice(),
            select: select.as_slice(),
        }),
        Definition::Fragment { .. } => None,
    }
}

fn fragment_of(definition: &Definition) -> Option<Fragment<'_>>
    ensures { result ≡ spec.fragment_of definition.now }
{
    match definition {
        Definition::Operation { .. } => None,
        Definition::Fragment {
            name,
            on,
            directives,
            select,
        } => Some(Fragment {
            name,
            on,
            directives: directives.as_slice(),
            select: select.as_slice(),
        }),
    }
}

/// The operations of a document, in their order.
pub fn operations_of(alloc: Global, document: &Document) -> Result<Vec<Operation<'_>>, NoMemory>
    ensures { IfOk result (λ found. found.items ≡ spec.operations document.now) }
{
    let mut found = Vec::new(alloc);
    for definition in document.definitions.as_slice() {
        if let Some(operation) = operation_of(definition) {
            found.push(operation)?;
        }
    }
    Ok(found)
}

/// The fragments of a document, in their order.
pub fn fragments_of(alloc: Global, document: &Document) -> Result<Vec<Fragment<'_>>, NoMemory>
    ensures { IfOk result (λ found. found.items ≡ spec.fragments document.now) }
{
    let mut found = Vec::new(alloc);
    for definition in document.definitions.as_slice() {
        if let Some(fragment) = fragment_of(definition) {
            found.push(fragment)?;
        }
    }
    Ok(found)
}

fn is_called(operation: &Operation<'_>, name: &str) -> bool
    ensures { result ≡ spec.is_called name.now operation.now }
{
    match operation.name {
        Some(own) => name == own.as_str(),
        None => false,
    }
}

fn named<'a, 'b>(
    operations: &'b [Operation<'a>],
    name: &str,
) -> Result<&'b Operation<'a>, FlatFault>
    ensures { result_map_both (λ o. o.now) (λ e. e) result
        ≡ spec.or_no_operation (find (spec.is_called name.now) operations.now) }
{
    for operation in operations {
        if is_called(operation, name) {
            return Ok(operation);
        }
    }
    Err(FlatFault::NoOperation)
}

fn only<'a, 'b>(operations: &'b [Operation<'a>]) -> Result<&'b Operation<'a>, FlatFault>
    ensures { result_map_both (λ o. o.now) (λ e. e) result ≡ spec.only_one operations.now }
{
    match operations {
        [] => Err(FlatFault::NoOperation),
        [operation] => Ok(operation),
        _ => Err(FlatFault::AmbiguousOperation),
    }
}

/// The first operation of the wanted name, or the only one where no name is wanted.
pub fn chosen<'a, 'b>(
    operations: &'b [Operation<'a>],
    wanted: Option<&Str>,
) -> Result<&'b Operation<'a>, FlatFault>
    ensures { result_map_both (λ o. o.now) (λ e. e) result ≡ spec.chosen (option_copied wanted.entry) operations.now }
{
    match wanted {
        Some(name) => named(operations, name.as_str()),
        None => only(operations),
    }
}
