//! The fields of one object (GraphQL October 2021, section 6.3.2, "Field Collection").

ghost use Rattle.std.specs.Prelude.{◌≡◌, ◌<◌, ◌+◌, ◌++◌, OnOk, IfOk, MatchBool, map, true, false};
ghost use Rattle.std.specs.List.{list_any, flat_map};
ghost use Rattle.std.specs.Str.{bytes_eq};
ghost use Rattle.request_model.specs.Selection as spec;
ghost use Rattle.gql_flat.specs.Collecting.{
  frames_of,
  of_frame,
  Adds,
  unless,
  entered,
  Falls,
  weight_one,
  weight_all,
  spread_weight,
  frame_weight,
};

use crate::groups::Groups;
pub use crate::groups::{Group, Selected};
use gql_scope::{Fragment, Scope};
use name_set::NameIndex;
use request_model::{Directive, GPair, Selection};
use scalar_val::{NoMemory, Str};
use std::alloc::Global;
use std::marker::Model;

/// What is collected of one object: the fragments that were spread, the type conditions that were met, and the fields.
#[derive(Drop)]
pub struct Object<'a> {
    pub visited: NameIndex<'a>,
    pub conditions: Vec<&'a Str>,
    pub groups: Groups<'a>,
}

impl<'a> Model for Object<'a> {
    ghost use Rattle.std.specs.Prelude.{map};
    ghost use Rattle.request_model.specs.Selection as spec;
    ghost use Rattle.std.specs.Coded.{codes};
    ghost use Rattle.request_model.specs.contracts.document.GValue as gvalue;
    ghost use Rattle.request_model.specs.contracts.document.GPair as gpair;
    ghost use Rattle.request_model.specs.contracts.document.Selection as selection;

    ghost Value = { spec.Collected };

    ghost coded = { Prim.hlevel (codes, gvalue.the_row.coded, gpair.the_row.coded, selection.the_row.coded) };

    ghost view = { λ c. record {
      visited = c.visited;
      conditions = map (λ t. t.now) c.conditions.items;
      groups = c.groups;
    } };
}

/// Whether the fragment is met for the first time; then it is noted with its type condition.
fn visit<'a>(fragment: &Fragment<'a>, found: &mut Object<'a>) -> Result<bool, NoMemory>
    ensures { IfOk result (λ first. MatchBool first
        ((list_any (bytes_eq fragment.now.name) found.old.visited ≡ false)
        × (found.new ≡ spec.noted fragment.now.on (spec.with_visited fragment.now.name found.old)))
        ((list_any (bytes_eq fragment.now.name) found.old.visited ≡ true) × (found.new ≡ found.old))) }
{
    if !found.visited.insert(fragment.name)? {
        return Ok(false);
    }
    found.conditions.push(fragment.on)?;
    Ok(true)
}

fn note_if<'a>(on: &'a Option<Str>, found: &mut Object<'a>) -> Result<(), NoMemory>
    ensures { OnOk result (found.new ≡ spec.noted_if on.now found.old) }
{
    if let Some(on) = on {
        found.conditions.push(on)?;
    }
    Ok(())
}

fn response_key<'a>(alias: &'a Option<Str>, name: &'a Str) -> &'a Str
    ensures { result.now ≡ spec.response_key alias.now name.now }
{
    match alias {
        Some(alias) => alias,
        None => name,
    }
}

fn put_field<'a>(alloc: Global, field: Selected<'a>, found: &mut Object<'a>) -> Result<(), NoMemory>
    ensures { OnOk result (found.new ≡ spec.with_field field.entry found.old) }
{
    found.groups.add_field(alloc, field)
}

fn field_of<'a>(
    alias: &'a Option<Str>,
    name: &'a Str,
    args: &'a [GPair],
    select: &'a [Selection],
) -> Selected<'a>
    ensures { result
        ≡ record { key = spec.response_key alias.now name.now; name = name.now; args = args.now; select = select.now } }
{
    Selected {
        key: response_key(alias, name),
        name,
        args,
        select,
    }
}

fn collect_field<'a>(
    alloc: Global,
    scope: &Scope<'a>,
    directives: &[Directive],
    field: Selected<'a>,
    found: &mut Object<'a>,
) -> Result<(), NoMemory>
    ensures { OnOk result (found.new ≡ spec.unless_dropped (spec.is_dropped scope.now directives.now)
        (spec.with_field field.entry) found.old) }
{
    if scope.is_dropped(directives) {
        return Ok(());
    }
    put_field(alloc, field, found)
}

/// Selections that wait to be collected; spreads nest at most `depth` deep in them.
#[derive(Drop)]
pub struct Frame<'a> {
    rest: &'a [Selection],
    depth: usize,
}

impl<'a> Model for Frame<'a> {
    ghost use Rattle.std.specs.Coded.{codes};
    ghost use Rattle.gql_flat.specs.Collecting as wait;
    ghost use Rattle.request_model.specs.contracts.document.GValue as gvalue;
    ghost use Rattle.request_model.specs.contracts.document.GPair as gpair;
    ghost use Rattle.request_model.specs.contracts.document.Selection as selection;

    ghost Value = { wait.Frame };

    ghost coded = { Prim.hlevel (codes, gvalue.the_row.coded, gpair.the_row.coded, selection.the_row.coded) };

    ghost view = { λ f. record { rest = f.rest.now; depth = f.depth } };
}

/// Puts selections on top, where there are some.
fn put<'a>(stack: &mut Vec<Frame<'a>>, depth: usize, set: &'a [Selection]) -> Result<(), NoMemory>
    ensures { OnOk result (stack.new.items ≡ stack.old.items ++ frames_of depth set.now) }
{
    if !set.is_empty() {
        stack.push(Frame { rest: set, depth })?;
    }
    Ok(())
}

fn collect_spread<'a>(
    scope: &Scope<'a>,
    depth: usize,
    directives: &[Directive],
    name: &str,
    stack: &mut Vec<Frame<'a>>,
    found: &mut Object<'a>,
) -> Result<(), NoMemory>
    ensures same { OnOk result (Adds scope.now
        (unless scope.now directives.now (spec.spreading scope.now depth name.now)) stack.old.items found.old
        stack.new.items found.new) }
    ensures falls { OnOk result (Falls scope.now.fragments (spread_weight scope.now.fragments depth name.now)
        stack.old.items stack.new.items) }
{
    if scope.is_dropped(directives) {
        return Ok(());
    }
    spread(scope, depth, name, stack, found)
}

fn spread<'a>(
    scope: &Scope<'a>,
    depth: usize,
    name: &str,
    stack: &mut Vec<Frame<'a>>,
    found: &mut Object<'a>,
) -> Result<(), NoMemory>
    ensures same { OnOk result (Adds scope.now (spec.spreading scope.now depth name.now) stack.old.items found.old
        stack.new.items found.new) }
    ensures falls { OnOk result (Falls scope.now.fragments (spread_weight scope.now.fragments depth name.now)
        stack.old.items stack.new.items) }
{
    if depth == 0 {
        return Ok(());
    }
    let Some(fragment) = scope.fragment(name) else {
        return Ok(());
    };
    let first = visit(fragment, found)?;
    if !first {
        return Ok(());
    }
    put(stack, depth - 1, fragment.select)
}

fn collect_inline<'a>(
    scope: &Scope<'a>,
    depth: usize,
    directives: &[Directive],
    on: &'a Option<Str>,
    set: &'a [Selection],
    stack: &mut Vec<Frame<'a>>,
    found: &mut Object<'a>,
) -> Result<(), NoMemory>
    ensures same { OnOk result (Adds scope.now
        (unless scope.now directives.now (entered scope.now depth on.now set.now)) stack.old.items found.old
        stack.new.items found.new) }
    ensures falls { OnOk result (Falls scope.now.fragments
        (2 + weight_all (spread_weight scope.now.fragments depth) set.now) stack.old.items stack.new.items) }
{
    if scope.is_dropped(directives) {
        return Ok(());
    }
    note_if(on, found)?;
    put(stack, depth, set)
}

/// Collects a selection, and leaves what is inside it on top of the stack.
#[tactic(auto, using(crate::proofs::CollectRules::of_field, crate::proofs::CollectRules::of_spread, crate::proofs::CollectRules::of_inline, crate::proofs::WeightRules::of_field, crate::proofs::WeightRules::of_spread, crate::proofs::WeightRules::of_inline))]
fn collect_one<'a>(
    alloc: Global,
    scope: &Scope<'a>,
    depth: usize,
    selection: &'a Selection,
    stack: &mut Vec<Frame<'a>>,
    found: &mut Object<'a>,
) -> Result<(), NoMemory>
    ensures same { OnOk result (Adds scope.now
        (spec.collect_one scope.now (spec.spreading scope.now depth) selection.now) stack.old.items found.old
        stack.new.items found.new) }
    ensures falls { OnOk result (Falls scope.now.fragments
        (weight_one (spread_weight scope.now.fragments depth) selection.now) stack.old.items stack.new.items) }
{
    match selection {
        Selection::Field {
            alias,
            name,
            args,
            directives,
            select,
        } => {
            let field = field_of(alias, name, args.as_slice(), select.as_slice());
            collect_field(alloc, scope, directives.as_slice(), field, found)
        }
        Selection::Spread { name, directives } => {
            collect_spread(
                scope,
                depth,
                directives.as_slice(),
                name.as_str(),
                stack,
                found,
            )
        }
        Selection::Inline {
            on,
            directives,
            select,
        } => collect_inline(
            scope,
            depth,
            directives.as_slice(),
            on,
            select.as_slice(),
            stack,
            found,
        ),
    }
}

/// Collects the first selection of a frame that was on top, and leaves on top what is inside it, with the rest below.
fn turn<'a>(
    alloc: Global,
    scope: &Scope<'a>,
    frame: &Frame<'a>,
    stack: &mut Vec<Frame<'a>>,
    found: &mut Object<'a>,
) -> Result<(), NoMemory>
    ensures same { OnOk result (Adds scope.now (of_frame scope.now frame.now) stack.old.items found.old stack.new.items
        found.new) }
    ensures falls { OnOk result (Falls scope.now.fragments (frame_weight scope.now.fragments frame.now) stack.old.items
        stack.new.items) }
{
    let [first, rest @ ..] = frame.rest else {
        return Ok(());
    };
    put(stack, frame.depth, rest)?;
    collect_one(alloc, scope, frame.depth, first, stack, found)
}

/// Collects selections in order; spreads nest at most `depth` deep. What waits stands on the heap, since inline
/// fragments and spreads may nest as deep as a document is long.
pub fn collect<'a>(
    alloc: Global,
    scope: &Scope<'a>,
    depth: usize,
    set: &'a [Selection],
    found: &mut Object<'a>,
) -> Result<(), NoMemory>
    ensures { OnOk result (found.new ≡ spec.collecting scope.now (spec.spreading scope.now depth) set.now found.old) }
{
    let mut stack = Vec::new(alloc);
    put(&mut stack, depth, set)?;
    while let Some(frame) = stack.pop() {
        turn(alloc, scope, &frame, &mut stack, found)?;
    }
    Ok(())
}

fn nothing<'a>(alloc: Global) -> Object<'a>
    ensures { result ≡ spec.nothing }
{
    Object {
        visited: NameIndex::new(alloc),
        conditions: Vec::new(alloc),
        groups: Groups::new(alloc),
    }
}

/// One object, whose selection set is this one.
pub fn collected<'a>(
    alloc: Global,
    scope: &Scope<'a>,
    set: &'a [Selection],
) -> Result<Object<'a>, NoMemory>
    ensures { IfOk result (λ found. found ≡ spec.collected scope.now set.now) }
{
    let mut found = nothing(alloc);
    collect(alloc, scope, scope.fragment_count(), set, &mut found)?;
    Ok(found)
}

fn collect_selected<'a>(
    alloc: Global,
    scope: &Scope<'a>,
    depth: usize,
    field: &Selected<'a>,
    found: &mut Object<'a>,
) -> Result<(), NoMemory>
    ensures { OnOk result (found.new ≡ spec.collecting scope.now (spec.spreading scope.now depth) field.now.select
        found.old) }
{
    collect(alloc, scope, depth, field.select, found)
}

#[tactic(auto, using(crate::proofs::CollectRules::collecting_both))]
fn collect_fields<'a>(
    alloc: Global,
    scope: &Scope<'a>,
    depth: usize,
    fields: &[Selected<'a>],
    found: &mut Object<'a>,
) -> Result<(), NoMemory>
    ensures { OnOk result (found.new ≡ spec.collecting scope.now (spec.spreading scope.now depth)
        (flat_map (λ (f : spec.Selected). f.select) fields.now) found.old) }
{
    for field in fields {
        collect_selected(alloc, scope, depth, field, found)?;
    }
    Ok(())
}

/// One object, whose selection set is those of all fields of one key together.
#[tactic(auto, using(crate::proofs::CollectRules::collecting_both))]
pub fn collected_inside<'a>(
    alloc: Global,
    scope: &Scope<'a>,
    group: &Group<'a>,
) -> Result<Object<'a>, NoMemory>
    ensures { IfOk result (λ found. found ≡ spec.collected scope.now (spec.inner_set group.now)) }
{
    let mut found = nothing(alloc);
    let depth = scope.fragment_count();
    collect_selected(alloc, scope, depth, &group.first, &mut found)?;
    collect_fields(alloc, scope, depth, group.others.as_slice(), &mut found)?;
    Ok(found)
}

pub fn groups_of<'a, 'b>(object: &'b Object<'a>) -> &'b [Group<'a>]
    ensures { result.now ≡ object.now.groups }
{
    object.groups.as_slice()
}

pub fn conditions_of<'a, 'b>(object: &'b Object<'a>) -> &'b [&'a Str]
    ensures { map (λ t. t.now) result.now ≡ object.now.conditions }
{
    object.conditions.as_slice()
}
