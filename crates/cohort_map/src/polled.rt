ghost use Rattle.std.specs.Prelude.{◌≡◌, ◌<◌, ◌++◌, ◌∷◌, List, [], length, IfOk, IfSome, OnOk};
ghost use Rattle.std.specs.List.{AllByRecursion};
ghost use Rattle.cohort_map.specs.declared.key.CohortKey.{CohortKey};
ghost use Rattle.cohort_map.specs.declared.seat.Seat.{Seat};
ghost use Rattle.cohort_map.specs.Seats.{IsWithin};
ghost use Rattle.cohort_map.specs.Listed.{IsAdded};
ghost use Rattle.cohort_map.specs.Polled.{is_of_at, ArePolled, AreMade, IsKept, IsChangedAt, IsSwept, HasRest};

use crate::key::PollerKey;
use crate::keys::Keys;
use crate::order::copy_poller;
use crate::seat::{Seat, is_kept};
use place_list::PlaceList;
use scalar_val::NoMemory;
use std::alloc::Global;
use std::collections::BTreeMap;

/// For each poller the places of its seats.
pub(crate) type Pollers = BTreeMap<PollerKey, PlaceList>;

/// Makes sure that a poller has a list. For want of memory nothing changes.
pub(crate) fn make_list(
    pollers: &mut Pollers,
    alloc: Global,
    poller: &PollerKey,
) -> Result<(), NoMemory>
    ensures made { AreMade pollers.old pollers.new }
    ensures there { OnOk result (IsKept poller.now pollers.new) }
{
    if pollers.contains_key(poller) {
        return Ok(());
    }
    let copy = copy_poller(alloc, poller)?;
    match pollers.insert(copy, PlaceList::new(alloc)) {
        Ok(_none) => Ok(()),
        Err(_refused) => Err(NoMemory),
    }
}

/// Adds a place to a poller's list, if it has one.
pub(crate) fn list_place(pollers: &mut Pollers, poller: &PollerKey, place: usize)
    ensures { IsChangedAt (IsAdded place) poller.now pollers.old pollers.new }
{
    match pollers.get_mut(poller) {
        Some(list) => list.add(place),
        None => {}
    }
}

/// Whether there is a seat of a poller at a place, which isn't empty.
fn is_of_at(keys: &Keys, poller: &PollerKey, seats: &[Seat], place: usize) -> bool
    ensures { result ≡ is_of_at keys.now poller.now seats.now place }
{
    match seats.get(place) {
        Some(seat) => is_kept(seat) && keys.is_polled_by(seat.cohort, poller),
        None => false,
    }
}

/// Counts a place of a poller's list as stale, and drops the stale ones where they are more than half.
fn settle(list: &mut PlaceList, keys: &Keys, poller: &PollerKey, seats: &[Seat])
    ensures { IsSwept keys.now poller.now seats.now list.old list.new }
{
    if list.note_stale() {
        list.retain(|place| is_of_at(keys, poller, seats, *place));
    }
}

/// The same of a poller's list, if it has one.
pub(crate) fn sweep(pollers: &mut Pollers, keys: &Keys, poller: &PollerKey, seats: &[Seat])
    ensures { IsChangedAt (IsSwept keys.now poller.now seats.now) poller.now pollers.old pollers.new }
{
    match pollers.get_mut(poller) {
        Some(list) => settle(list, keys, poller, seats),
        None => {}
    }
}

/// From a place on, in ascending order, all places of a poller's seats, and maybe others; `None` where its list isn't
/// complete.
pub(crate) fn places_from<'a>(
    pollers: &'a Pollers,
    poller: &PollerKey,
    place: usize,
) -> Option<&'a [usize]>
    ensures { IfSome result (λ places. (keys : List CohortKey) (seats : List Seat) → ArePolled keys seats pollers.now
        → HasRest keys poller.now seats place places.now) }
{
    match pollers.get(poller) {
        Some(list) => {
            if list.is_complete() {
                Some(list.since(place))
            } else {
                None
            }
        }
        None => None,
    }
}

/// Lists a seat at the end for its poller.
fn list_seat(
    pollers: &mut Pollers,
    alloc: Global,
    keys: &Keys,
    seat: &Seat,
    place: usize,
) -> Result<(), NoMemory>
    requires { seat.now.cohort < length keys.now }
    ensures { OnOk result ((seats : List Seat) → place ≡ length seats → ArePolled keys.now seats pollers.old
        → ArePolled keys.now (seats ++ seat.now ∷ []) pollers.new) }
{
    let poller = &keys.get(seat.cohort).poller;
    make_list(pollers, alloc, poller)?;
    list_place(pollers, poller, place);
    Ok(())
}

/// The lists of the pollers of all seats.
pub(crate) fn list_all(alloc: Global, keys: &Keys, seats: &[Seat]) -> Result<Pollers, NoMemory>
    requires { AllByRecursion (IsWithin (length keys.now)) seats.now }
    ensures { IfOk result (λ pollers. ArePolled keys.now seats.now pollers) }
{
    let mut pollers = Pollers::new(alloc);
    for place in 0..seats.len() {
        list_seat(&mut pollers, alloc, keys, &seats[place], place)?;
    }
    Ok(pollers)
}
