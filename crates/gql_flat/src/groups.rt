//! The fields of one object, grouped by their response keys.

ghost use Rattle.std.specs.Prelude.{◌≡◌, ◌++◌, ◌∷◌, [], map, OnOk, OnErr};
ghost use Rattle.request_model.specs.Selection as spec;
ghost use Rattle.gql_flat.specs.Collecting.{keys_of};

use name_set::NameIndex;
use request_model::{GPair, Selection};
use scalar_val::{NoMemory, Str};
use std::alloc::Global;
use std::marker::Model;

/// A field as it is selected, under its response key.
#[derive(Drop)]
pub struct Selected<'a> {
    pub key: &'a Str,
    pub name: &'a Str,
    pub args: &'a [GPair],
    pub select: &'a [Selection],
}

impl<'a> Model for Selected<'a> {
    ghost use Rattle.request_model.specs.Selection as spec;
    ghost use Rattle.std.specs.Coded.{codes};
    ghost use Rattle.request_model.specs.contracts.document.GValue as gvalue;
    ghost use Rattle.request_model.specs.contracts.document.GPair as gpair;
    ghost use Rattle.request_model.specs.contracts.document.Selection as selection;

    ghost Value = { spec.Selected };

    ghost coded = { Prim.hlevel (codes, gvalue.the_row.coded, gpair.the_row.coded, selection.the_row.coded) };

    ghost view = { λ f. record { key = f.key.now; name = f.name.now; args = f.args.now; select = f.select.now } };
}

/// The fields of one response key, in the order in which they are met.
#[derive(Drop)]
pub struct Group<'a> {
    pub first: Selected<'a>,
    pub others: Vec<Selected<'a>>,
}

impl<'a> Model for Group<'a> {
    ghost use Rattle.request_model.specs.Selection as spec;
    ghost use Rattle.std.specs.Coded.{codes};
    ghost use Rattle.request_model.specs.contracts.document.GValue as gvalue;
    ghost use Rattle.request_model.specs.contracts.document.GPair as gpair;
    ghost use Rattle.request_model.specs.contracts.document.Selection as selection;

    ghost Value = { spec.Group };

    ghost coded = { Prim.hlevel (codes, gvalue.the_row.coded, gpair.the_row.coded, selection.the_row.coded) };

    ghost view = { λ g. record { first = g.first; others = g.others.items } };
}

/// The groups of one object, in the order of their first fields. One is found by its key in logarithmic time.
#[derive(Drop)]
pub struct Groups<'a> {
    items: Vec<Group<'a>>,
    keys: NameIndex<'a>,
}

impl<'a> Model for Groups<'a> {
    ghost use Rattle.std.specs.Prelude.{◌≡◌, List};
    ghost use Rattle.std.specs.Coded.{codes};
    ghost use Rattle.request_model.specs.Selection as spec;
    ghost use Rattle.request_model.specs.contracts.document.GValue as gvalue;
    ghost use Rattle.request_model.specs.contracts.document.GPair as gpair;
    ghost use Rattle.request_model.specs.contracts.document.Selection as selection;
    ghost use Rattle.gql_flat.specs.Collecting.{keys_of};

    ghost Value = { List spec.Group };

    ghost coded = { Prim.hlevel (codes, gvalue.the_row.coded, gpair.the_row.coded, selection.the_row.coded) };

    ghost view = { λ g. g.items.items };

    ghost invariant = { λ g. g.keys ≡ keys_of g.items.items };
}

fn join<'a>(group: &mut Group<'a>, field: Selected<'a>) -> Result<(), NoMemory>
    ensures first { group.new.first ≡ group.old.first }
    ensures joined { OnOk result
        (group.new ≡ record { first = group.old.first; others = group.old.others ++ field.entry ∷ [] }) }
{
    group.others.push(field)?;
    Ok(())
}

/// Begins a group. Out of memory the groups and their keys are as before.
fn begin<'a>(
    alloc: Global,
    items: &mut Vec<Group<'a>>,
    keys: &mut NameIndex<'a>,
    field: Selected<'a>,
) -> Result<(), NoMemory>
    requires { keys.old ≡ keys_of items.old.items }
    ensures keys { keys.new ≡ keys_of items.new.items }
    ensures err { OnErr result (items.new.items ≡ items.old.items) }
    ensures begun { OnOk result (items.new.items
        ≡ items.old.items ++ record { first = field.entry; others = [] } ∷ []) }
{
    let key = field.key;
    let others = Vec::new(alloc);
    items.push(Group {
        first: field,
        others,
    })?;
    match keys.push(key) {
        Ok(()) => Ok(()),
        Err(_) => {
            items.pop();
            Err(NoMemory)
        }
    }
}

fn add_field<'a>(
    alloc: Global,
    items: &mut Vec<Group<'a>>,
    keys: &mut NameIndex<'a>,
    field: Selected<'a>,
) -> Result<(), NoMemory>
    requires { keys.old ≡ keys_of items.old.items }
    ensures keys { keys.new ≡ keys_of items.new.items }
    ensures added { OnOk result (items.new.items ≡ spec.grouped field.entry items.old.items) }
{
    match keys.place(field.key.as_str()) {
        Some(place) => join(&mut items[place], field),
        None => begin(alloc, items, keys, field),
    }
}

impl<'a> Groups<'a> {
    pub fn new(alloc: Global) -> Groups<'a>
        ensures { result ≡ [] }
    {
        Groups {
            items: Vec::new(alloc),
            keys: NameIndex::new(alloc),
        }
    }

    /// Adds a field to the group of its key, or begins one.
    pub fn add_field(&mut self, alloc: Global, field: Selected<'a>) -> Result<(), NoMemory>
        ensures { OnOk result (self.new ≡ spec.grouped field.entry self.old) }
    {
        add_field(alloc, &mut self.items, &mut self.keys, field)
    }

    pub fn as_slice(&self) -> &[Group<'a>]
        ensures { result.now ≡ self.now }
    {
        self.items.as_slice()
    }
}
