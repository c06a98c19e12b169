//! Fragments, which are found by their names.

ghost use Rattle.std.specs.Prelude.{◌≡◌, map, length, IfOk};
ghost use Rattle.std.specs.List.{slice_get};
ghost use Rattle.std.specs.Option.{option_copied};
ghost use Rattle.request_model.specs.Selection as spec;
ghost use Rattle.gql_scope.specs.Walks.{place_of};

use crate::operation::Fragment;
use name_set::NameIndex;
use scalar_val::NoMemory;
use std::alloc::Global;
use std::marker::Model;

/// The fragments of a document, in their order. One is found by its name in logarithmic time.
#[derive(Drop)]
pub struct Fragments<'a> {
    items: Vec<Fragment<'a>>,
    names: NameIndex<'a>,
}

impl<'a> Model for Fragments<'a> {
    ghost use Rattle.std.specs.Prelude.{◌≡◌, List, map};
    ghost use Rattle.std.specs.Coded.{codes};
    ghost use Rattle.request_model.specs.Selection as spec;
    ghost use Rattle.request_model.specs.contracts.document.GValue as gvalue;
    ghost use Rattle.request_model.specs.contracts.document.GPair as gpair;
    ghost use Rattle.request_model.specs.contracts.document.Selection as selection;

    ghost Value = { List spec.Fragment };

    ghost coded = { Prim.hlevel (codes, gvalue.the_row.coded, gpair.the_row.coded, selection.the_row.coded) };

    ghost view = { λ f. f.items.items };

    ghost invariant = { λ f. f.names ≡ map (λ (g : spec.Fragment). g.name) f.items.items };
}

fn names_of<'a>(alloc: Global, fragments: &[Fragment<'a>]) -> Result<NameIndex<'a>, NoMemory>
    ensures { IfOk result (λ names. names ≡ map (λ (f : spec.Fragment). f.name) fragments.now) }
{
    let mut names = NameIndex::new(alloc);
    for fragment in fragments {
        names.push(fragment.name)?;
    }
    Ok(names)
}

fn at<'a, 'b>(fragments: &'b [Fragment<'a>], place: usize) -> Option<&'b Fragment<'a>>
    ensures { option_copied result ≡ slice_get fragments.now place }
{
    fragments.get(place)
}

impl<'a> Fragments<'a> {
    /// The fragments in their order, with a map of their names. It fails only when out of memory.
    pub fn of(alloc: Global, items: Vec<Fragment<'a>>) -> Result<Fragments<'a>, NoMemory>
        ensures { IfOk result (λ fragments. fragments ≡ items.entry.items) }
    {
        let names = names_of(alloc, items.as_slice())?;
        Ok(Fragments { items, names })
    }

    /// The fragments in their order.
    pub fn as_slice(&self) -> &[Fragment<'a>]
        ensures { result.now ≡ self.now }
    {
        self.items.as_slice()
    }

    /// How many there are.
    pub fn count(&self) -> usize
        ensures { result ≡ length self.now }
    {
        self.items.len()
    }

    /// The place of the first fragment of a name, or the number of fragments.
    pub fn place_or_count(&self, name: &str) -> usize
        ensures { result ≡ place_of self.now name.now }
    {
        self.names.place(name).unwrap_or(self.items.len())
    }

    /// The first fragment of a name.
    pub fn named(&self, name: &str) -> Option<&Fragment<'a>>
        ensures { option_copied result ≡ spec.fragment_named self.now name.now }
    {
        match self.names.place(name) {
            Some(place) => at(self.items.as_slice(), place),
            None => None,
        }
    }
}
