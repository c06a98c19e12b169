ghost use Rattle.std.specs.Prelude.{◌≡◌, ◌<◌, ◌≤◌, ◌++◌, [], find, filter_map, length, slice_get, IfOk, OnOk};
ghost use Rattle.std.specs.Option.{option_to_list};
ghost use Rattle.std.specs.List.{AllByRecursion};
ghost use Rattle.place_list.specs.Places.{read_at};
ghost use Rattle.cohort_map.specs.Seats.{IsSound, IsWithin, seat_due, member_seen};
ghost use Rattle.cohort_map.specs.Listed.{IsFirstDue, seen_at};
ghost use Rattle.cohort_map.specs.Choice.{polled_with, is_next, with_cohort, chosen_cohorts, cohorts_by, batch_by};
ghost use Rattle.cohort_map.specs.Polled.{ArePolled};

use crate::chosen_set::Chosen;
use crate::keys::Keys;
use crate::member::{Member, MemberList};
use crate::order::is_same_poller;
use crate::polled::{Pollers, places_from};
use crate::seat::Seat;
use crate::seats::Seats;
use scalar_val::NoMemory;
use std::alloc::Global;

/// Whether the keys at two places are of one poller.
fn is_polled_with(keys: &Keys, first: usize, other: usize) -> bool
    requires first { first < length keys.now }
    requires other { other < length keys.now }
    ensures { result ≡ polled_with keys.now first other }
{
    is_same_poller(&keys.get(first).poller, &keys.get(other).poller)
}

/// Whether a seat is a due one of the first cohort's poller, whose cohort isn't chosen yet, and there is room.
fn is_next(keys: &Keys, cohorts: &Chosen, seat: &Seat, first: usize, limit: usize) -> bool
    requires first { first < length keys.now }
    requires within { seat.now.cohort < length keys.now }
    ensures { result ≡ is_next keys.now limit first cohorts.now seat.now }
{
    cohorts.len() < limit
        && seat.due
        && !cohorts.has(seat.cohort)
        && is_polled_with(keys, first, seat.cohort)
}

/// Chooses a seat's cohort, if it is the next one.
fn choose(
    cohorts: &mut Chosen,
    keys: &Keys,
    seat: &Seat,
    first: usize,
    limit: usize,
) -> Result<(), NoMemory>
    requires first { first < length keys.now }
    requires within { seat.now.cohort < length keys.now }
    ensures { OnOk result (cohorts.new ≡ with_cohort keys.now limit first cohorts.old seat.now) }
{
    if is_next(keys, cohorts, seat, first, limit) {
        cohorts.add(seat.cohort)
    } else {
        Ok(())
    }
}

/// The cohorts with a due member of the first one's poller, in the order of their least due numbers, cut to the limit.
fn cohorts_of(
    alloc: Global,
    keys: &Keys,
    seats: &[Seat],
    first: usize,
    limit: usize,
) -> Result<Chosen, NoMemory>
    requires first { first < length keys.now }
    requires within { AllByRecursion (IsWithin (length keys.now)) seats.now }
    ensures bound { IfOk result (λ cohorts. length cohorts ≤ limit) }
    ensures chosen { IfOk result (λ cohorts. cohorts ≡ chosen_cohorts keys.now limit first [] seats.now) }
{
    let mut cohorts = Chosen::new(alloc);
    for seat in seats {
        if cohorts.len() == limit {
            return Ok(cohorts);
        }
        choose(&mut cohorts, keys, seat, first, limit)?;
    }
    Ok(cohorts)
}

/// The same of the seat at a place, if there is one.
fn choose_at(
    cohorts: &mut Chosen,
    keys: &Keys,
    seats: &[Seat],
    place: usize,
    first: usize,
    limit: usize,
) -> Result<(), NoMemory>
    requires first { first < length keys.now }
    requires within { AllByRecursion (IsWithin (length keys.now)) seats.now }
    ensures { OnOk result
        (cohorts.new ≡ chosen_cohorts keys.now limit first cohorts.old (option_to_list (slice_get seats.now place))) }
{
    match seats.get(place) {
        Some(seat) => choose(cohorts, keys, seat, first, limit),
        None => Ok(()),
    }
}

/// The same, of the seats at these places.
fn cohorts_at(
    alloc: Global,
    keys: &Keys,
    seats: &[Seat],
    places: &[usize],
    first: usize,
    limit: usize,
) -> Result<Chosen, NoMemory>
    requires first { first < length keys.now }
    requires within { AllByRecursion (IsWithin (length keys.now)) seats.now }
    ensures bound { IfOk result (λ cohorts. length cohorts ≤ limit) }
    ensures chosen { IfOk result
        (λ cohorts. cohorts ≡ chosen_cohorts keys.now limit first [] (read_at seats.now places.now)) }
{
    let mut cohorts = Chosen::new(alloc);
    for place in places {
        if cohorts.len() == limit {
            return Ok(cohorts);
        }
        choose_at(&mut cohorts, keys, seats, *place, first, limit)?;
    }
    Ok(cohorts)
}

/// Adds a seat's subscription, if it lives and is of some cohorts, with the place of its cohort, from 1.
fn push_member(members: &mut MemberList, seat: &Seat, cohorts: &Chosen) -> Result<(), NoMemory>
    requires { length cohorts.now < 4294967296 }
    ensures { OnOk result (members.new ≡ members.old ++ option_to_list (member_seen cohorts.now seat.now)) }
{
    if !seat.live {
        return Ok(());
    }
    match cohorts.position(seat.cohort) {
        Some(place) => members
            .push(Member {
                sub: seat.number,
                id: place as u32 + 1,
            })
            .map_err(|_| NoMemory),
        None => Ok(()),
    }
}

/// The same, of the seat at a place, if there is one.
fn push_at(
    members: &mut MemberList,
    seats: &[Seat],
    place: usize,
    cohorts: &Chosen,
) -> Result<(), NoMemory>
    requires { length cohorts.now < 4294967296 }
    ensures { OnOk result (members.new ≡ members.old ++ option_to_list (seen_at cohorts.now seats.now place)) }
{
    match seats.get(place) {
        Some(seat) => push_member(members, seat, cohorts),
        None => Ok(()),
    }
}

/// The live subscriptions of some cohorts, each with the place of its cohort, from 1.
fn members_of(alloc: Global, seats: &[Seat], cohorts: &Chosen) -> Result<MemberList, NoMemory>
    requires { length cohorts.now < 4294967296 }
    ensures { IfOk result (λ members. members ≡ filter_map (member_seen cohorts.now) seats.now) }
{
    let mut members = MemberList::new(alloc);
    for seat in seats {
        push_member(&mut members, seat, cohorts)?;
    }
    Ok(members)
}

/// The same, of the seats at these places.
fn members_at(
    alloc: Global,
    seats: &[Seat],
    places: &[usize],
    cohorts: &Chosen,
) -> Result<MemberList, NoMemory>
    requires { length cohorts.now < 4294967296 }
    ensures { IfOk result (λ members. members ≡ filter_map (seen_at cohorts.now seats.now) places.now) }
{
    let mut members = MemberList::new(alloc);
    for place in places {
        push_at(&mut members, seats, *place, cohorts)?;
    }
    Ok(members)
}

/// The live subscriptions of some cohorts, by the lists of their seats' places where these are complete.
fn members_in(alloc: Global, seats: &Seats, cohorts: &Chosen) -> Result<MemberList, NoMemory>
    requires { length cohorts.now < 4294967296 }
    ensures { IfOk result (λ members. members ≡ filter_map (member_seen cohorts.now) seats.now.seats) }
{
    let found = seats.places_of(alloc, cohorts.as_slice())?;
    match found {
        Some(places) => members_at(alloc, seats.as_slice(), &places, cohorts),
        None => members_of(alloc, seats.as_slice(), cohorts),
    }
}

/// The cohorts of the next job, where the seat of the least due number is at a place.
fn cohorts_from(
    alloc: Global,
    keys: &Keys,
    seats: &[Seat],
    pollers: &Pollers,
    place: usize,
    limit: usize,
) -> Result<Chosen, NoMemory>
    requires sound { AllByRecursion (IsSound (length keys.now)) seats.now }
    requires polled { ArePolled keys.now seats.now pollers.now }
    requires first { IsFirstDue seats.now place }
    ensures bound { IfOk result (λ cohorts. length cohorts ≤ limit) }
    ensures chosen { IfOk result
        (λ cohorts. cohorts ≡ cohorts_by keys.now limit seats.now (find seat_due seats.now)) }
{
    let first = seats[place].cohort;
    match places_from(pollers, &keys.get(first).poller, place) {
        Some(places) => cohorts_at(alloc, keys, seats, places, first, limit),
        None => cohorts_of(alloc, keys, &seats[place..], first, limit),
    }
}

/// The members of the next job.
pub(crate) fn batch_of(
    alloc: Global,
    keys: &Keys,
    seats: &Seats,
    pollers: &Pollers,
    limit: u32,
) -> Result<MemberList, NoMemory>
    requires sound { AllByRecursion (IsSound (length keys.now)) seats.now.seats }
    requires polled { ArePolled keys.now seats.now.seats pollers.now }
    ensures { IfOk result (λ members. members ≡ batch_by keys.now limit seats.now.seats (find seat_due seats.now.seats)) }
{
    match seats.first_due() {
        Some(place) => {
            let all = seats.as_slice();
            let cohorts = cohorts_from(alloc, keys, all, pollers, place, limit as usize)?;
            members_in(alloc, seats, &cohorts)
        }
        None => Ok(MemberList::new(alloc)),
    }
}
