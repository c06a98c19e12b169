//! Variables, which are found by their names.

ghost use Rattle.std.specs.Prelude.{◌≡◌, map, IfOk, OnOk};
ghost use Rattle.std.specs.Option.{option_copied};
ghost use Rattle.query_model.specs.Variables.{variable_named};
ghost use Rattle.query_model.specs.declared.variable.Variable.{Variable};
ghost use Rattle.name_set.specs.Names.{first_at};
ghost use Rattle.name_set.specs.Places.{Finds};
ghost use Rattle.variable_values.specs.Places.{Notes};

use query_model::{Variable, VariableList};
use scalar_val::NoMemory;
use std::alloc::Global;
use std::collections::BTreeMap;
use std::marker::Model;

/// The variables of an operation with their values, in order of declaration; each is found by its name in logarithmic
/// time.
#[derive(Debug, Drop)]
pub struct Variables {
    items: VariableList,
    places: BTreeMap<String, usize>,
}

impl Model for Variables {
    ghost use Rattle.std.specs.Prelude.{List, map};
    ghost use Rattle.query_model.specs.declared.variable.Variable.{Variable};
    ghost use Rattle.name_set.specs.Places.{Finds};

    ghost Value = { List Variable };

    ghost view = { λ v. v.items };

    ghost invariant = { λ v. Finds v.places (map (λ (x : Variable). x.name) v.items) };
}

/// Notes a place under a name, in place of the one that it had.
fn note(
    alloc: Global,
    places: &mut BTreeMap<String, usize>,
    name: &str,
    place: usize,
) -> Result<(), NoMemory>
    ensures { OnOk result (Notes places.old places.new name.now place) }
{
    let name = String::from_str(alloc, name)?;
    let _before = places.insert(name, place)?;
    Ok(())
}

/// The place at which each name comes first.
fn first_places(alloc: Global, variables: &[Variable]) -> Result<BTreeMap<String, usize>, NoMemory>
    ensures { IfOk result (λ places. Finds places (map (λ (x : Variable). x.name) variables.now)) }
{
    let mut places = BTreeMap::new(alloc);
    for place in (0..variables.len()).rev() {
        note(alloc, &mut places, variables[place].name.as_str(), place)?;
    }
    Ok(places)
}

impl Variables {
    /// The variables of a list, which is moved and not copied; only their names are, into the index. `NoMemory` where
    /// memory is refused.
    pub(crate) fn of(alloc: Global, items: VariableList) -> Result<Variables, NoMemory>
        ensures { IfOk result (λ variables. variables ≡ items) }
    {
        let places = first_places(alloc, items.as_slice())?;
        Ok(Variables { items, places })
    }

    /// The place of the first variable of a name.
    fn place(&self, name: &str) -> Option<usize>
        ensures { result ≡ first_at (map (λ (x : Variable). x.name) self.now) name.now }
    {
        self.places.get(name).copied()
    }

    /// The variables in order of declaration.
    pub fn list(&self) -> &[Variable]
        ensures { result.now ≡ self.now }
    {
        self.items.as_slice()
    }

    /// The first variable of a name, if there is one.
    pub fn named(&self, name: &str) -> Option<&Variable>
        ensures { option_copied result ≡ variable_named self.now name.now }
    {
        match self.place(name) {
            Some(place) => self.items.get(place),
            None => None,
        }
    }
}
