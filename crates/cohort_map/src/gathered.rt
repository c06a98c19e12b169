ghost use Rattle.std.specs.Prelude.{◌≡◌, ◌<◌, ℕ, true, false, ◌++◌, Contains, length, slice_index_or, IfOk, IfSome, OnOk};
ghost use Rattle.place_list.specs.Places.{Ascends};
ghost use Rattle.cohort_map.specs.Listed.{NoneDue, no_seat, IsLowered, Gathers};

use crate::listed::{complete, known};
use crate::seat::Seat;
use place_list::PlaceList;
use scalar_val::NoMemory;
use std::alloc::Global;

/// The place of the first due seat that isn't before a place, or the end.
pub(crate) fn next_due(seats: &[Seat], from: usize) -> usize
    ensures none { NoneDue from seats.now → NoneDue result seats.now }
    ensures due { result < length seats.now → (slice_index_or seats.now result no_seat).due ≡ true }
{
    let mut place = from;
    while place < seats.len() {
        if seats[place].due {
            return place;
        }
        place += 1;
    }
    place
}

/// No more than a place and, where `due` is true, than the places of a list.
pub(crate) fn lowered(first: usize, list: &PlaceList, due: bool) -> usize
    ensures { IsLowered first list.now due result }
{
    if !due {
        return first;
    }
    match complete(list) {
        Some(places) => match places.first() {
            Some(least) => first.min(*least),
            None => first,
        },
        None => 0,
    }
}

/// The least place that may be due where a seat was added at the end.
pub(crate) fn start_of(first: usize, due: bool) -> usize
    ensures due { due ≡ true → result ≡ 0 }
    ensures rests { due ≡ false → result ≡ first }
{
    if due { 0 } else { first }
}

fn append(all: &mut Vec<usize>, places: &[usize]) -> Result<(), NoMemory>
    ensures { OnOk result (all.new.items ≡ all.old.items ++ places.now) }
{
    for place in places {
        all.push(*place)?;
    }
    Ok(())
}

/// The places of some cohorts' lists, one list after another; `None` where one isn't complete.
pub(crate) fn gather(
    alloc: Global,
    lists: &[PlaceList],
    cohorts: &[usize],
) -> Result<Option<Vec<usize>>, NoMemory>
    ensures { IfOk result (λ found. IfSome found (λ places. Gathers lists.now cohorts.now places.items)) }
{
    let mut all = Vec::new(alloc);
    for cohort in cohorts {
        match known(lists, *cohort) {
            Some(places) => append(&mut all, places)?,
            None => return Ok(None),
        }
    }
    Ok(Some(all))
}

/// The same places in ascending order, each once.
pub(crate) fn in_order(places: Vec<usize>) -> Vec<usize>
    ensures ascend { Ascends result.items }
    ensures keeps { (p : ℕ) → Contains places.items p → Contains result.items p }
{
    let mut places = places;
    places.sort_unstable();
    places.dedup();
    places
}
