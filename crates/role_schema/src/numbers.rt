//! Numbers by their places.

ghost use Rattle.std.specs.Prelude.{◌≡◌, OnOk, IfOk};
ghost use Rattle.role_schema.specs.Numbers.{first_number, place_in, Learns, HasPlaces};

use scalar_val::{List, NoMemory};
use std::alloc::Global;
use std::collections::BTreeMap;
use std::marker::Model;

/// Numbers in the order in which they came, each found at its first place in logarithmic time.
#[derive(Debug, Drop)]
pub struct NumberIndex {
    numbers: List<u32>,
    places: BTreeMap<u32, usize>,
}

impl Model for NumberIndex {
    ghost use Rattle.std.specs.Prelude.{List, ℕ};
    ghost use Rattle.role_schema.specs.Numbers.{HasPlaces};

    ghost Value = { List ℕ };

    ghost view = { λ n. n.numbers };

    ghost invariant = { λ n. HasPlaces n.places n.numbers };
}

/// Notes the place of a number that has none yet.
fn learn(places: &mut BTreeMap<u32, usize>, number: u32, place: usize) -> Result<(), NoMemory>
    ensures { OnOk result (Learns places.old places.new number place) }
{
    if places.contains_key(&number) {
        return Ok(());
    }
    match places.insert(number, place) {
        Ok(_before) => Ok(()),
        Err(_refused) => Err(NoMemory),
    }
}

fn places_of(alloc: Global, numbers: &[u32]) -> Result<BTreeMap<u32, usize>, NoMemory>
    ensures { IfOk result (λ places. HasPlaces places numbers.now) }
{
    let mut places = BTreeMap::new(alloc);
    for (place, number) in numbers.iter().enumerate() {
        learn(&mut places, *number, place)?;
    }
    Ok(places)
}

impl NumberIndex {
    /// The numbers in their order. `NoMemory` where memory is refused.
    pub fn of(alloc: Global, numbers: List<u32>) -> Result<NumberIndex, NoMemory>
        ensures { IfOk result (λ index. index ≡ numbers) }
    {
        let places = places_of(alloc, numbers.as_slice())?;
        Ok(NumberIndex { numbers, places })
    }

    /// The place at which a number came first, from 0, or `None` where it isn't there.
    pub fn place(&self, number: u32) -> Option<usize>
        ensures { result ≡ first_number self.now number }
    {
        self.places.get(&number).copied()
    }
}
