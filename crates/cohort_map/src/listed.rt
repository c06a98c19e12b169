ghost use Rattle.std.specs.Prelude.{◌≡◌, ◌<◌, ℕ, true, false, Some, None, List, [], ◌∷◌, ◌++◌, ◌||◌, not, map, filter_map, length, IfOk, IfSome};
ghost use Rattle.std.specs.BTreeMap.{get};
ghost use Rattle.std.specs.Ordering.{nat_cmp};
ghost use Rattle.std.specs.List.{list_any};
ghost use Rattle.place_list.specs.Places.{Covers};
ghost use Rattle.cohort_map.specs.Seats.{Rise, at, seat_marked, seat_opened, seat_closed, seat_moved};
ghost use Rattle.cohort_map.specs.declared.seat.Seat.{Seat};
ghost use Rattle.cohort_map.specs.Listed.{belongs_at, is_of_job, live_at, busy_at, Lists, AreListed, JobsAreListed, JobsAreKnown, IsComplete, IsKnown, IsChanged, IsAdded, IsSettled, IsTaken};

use crate::member::{Member, SubList};
use crate::seat::{Seat, close, closed, find_seat, is_kept};
use place_list::PlaceList;
use scalar_val::NoMemory;
use std::alloc::Global;
use std::collections::BTreeMap;

/// The places of a cohort's list, if it is complete.
pub(crate) fn known(lists: &[PlaceList], cohort: usize) -> Option<&[usize]>
    ensures { IfSome result (λ places. IsKnown lists.now cohort places.now) }
{
    match lists.get(cohort) {
        Some(list) => complete(list),
        None => None,
    }
}

pub(crate) fn complete(list: &PlaceList) -> Option<&[usize]>
    ensures { IfSome result (λ places. IsComplete list.now places.now) }
{
    if list.is_complete() {
        Some(list.as_slice())
    } else {
        None
    }
}

/// Adds a place to a cohort's list.
pub(crate) fn add_place(lists: &mut [PlaceList], cohort: usize, place: usize)
    requires { cohort < length lists.old }
    ensures { IsChanged (IsAdded place) cohort lists.old lists.new }
{
    lists[cohort].add(place);
}

/// Whether there is a seat of a cohort at a place, which isn't empty.
fn belongs_at(seats: &[Seat], cohort: usize, place: usize) -> bool
    ensures { result ≡ belongs_at cohort seats.now place }
{
    match seats.get(place) {
        Some(seat) => is_kept(seat) && seat.cohort == cohort,
        None => false,
    }
}

/// Counts a place of a cohort's list as stale, and drops the stale ones where they are more than half.
fn settle(list: &mut PlaceList, seats: &[Seat], cohort: usize)
    ensures { IsSettled cohort seats.now list.old list.new }
{
    if list.note_stale() {
        list.retain(|place| belongs_at(seats, cohort, *place));
    }
}

/// The same of one of the lists, if there is one.
pub(crate) fn sweep(lists: &mut [PlaceList], seats: &[Seat], cohort: usize)
    ensures { IsChanged (IsSettled cohort seats.now) cohort lists.old lists.new }
{
    if cohort < lists.len() {
        settle(&mut lists[cohort], seats, cohort);
    }
}

/// The number of a cohort's seat at a place, if it is live.
fn live_number(seats: &[Seat], place: usize, cohort: usize) -> Option<u64>
    ensures { result ≡ live_at cohort seats.now place }
{
    match seats.get(place) {
        Some(seat) => {
            if seat.live && seat.cohort == cohort {
                Some(seat.number)
            } else {
                None
            }
        }
        None => None,
    }
}

/// The live numbers of a cohort, whose seats are at these places.
pub(crate) fn live_numbers(
    alloc: Global,
    seats: &[Seat],
    places: &[usize],
    cohort: usize,
) -> Result<SubList, NoMemory>
    ensures { IfOk result (λ subs. subs ≡ filter_map (live_at cohort seats.now) places.now) }
{
    let mut subs = SubList::new(alloc);
    for place in places {
        if let Some(number) = live_number(seats, *place, cohort) {
            subs.push(number).map_err(|_| NoMemory)?;
        }
    }
    Ok(subs)
}

/// Whether a cohort's seat at a place has a member in an open job.
fn is_busy_at(seats: &[Seat], place: usize, cohort: usize) -> bool
    ensures { result ≡ busy_at cohort seats.now place }
{
    match seats.get(place) {
        Some(seat) => seat.cohort == cohort && seat.job.is_some(),
        None => false,
    }
}

/// Whether a cohort, whose seats are at these places, has a member in an open job.
pub(crate) fn is_any_busy(seats: &[Seat], places: &[usize], cohort: usize) -> bool
    ensures { result ≡ list_any (busy_at cohort seats.now) places.now }
{
    for place in places {
        if is_busy_at(seats, *place, cohort) {
            return true;
        }
    }
    false
}

/// Moves a number's seat, if it isn't empty, to the cohort of another key, and lists its place. It gives the cohort before.
pub(crate) fn move_to(
    seats: &mut [Seat],
    lists: &mut [PlaceList],
    number: u64,
    cohort: usize,
) -> Option<usize>
    requires rise { Rise seats.old }
    requires within { cohort < length lists.old }
    ensures seats { seats.new ≡ map (at number (seat_moved cohort)) seats.old }
    ensures listed { AreListed seats.old lists.old → AreListed seats.new lists.new }
    ensures long { length lists.new ≡ length lists.old }
{
    match find_seat(seats, number) {
        Some(place) => {
            let seat = seats[place];
            seats[place] = Seat { cohort, ..seat };
            add_place(lists, cohort, place);
            Some(seat.cohort)
        }
        None => None,
    }
}

/// Marks a number's seat, if it isn't empty, with a job, and lists its place; it is no longer due.
fn mark(seats: &mut [Seat], list: &mut PlaceList, job: u64, number: u64)
    requires { Rise seats.old }
    ensures seats { seats.new ≡ map (at number (seat_marked job)) seats.old }
    ensures listed { Lists (is_of_job job) seats.old list.old → Lists (is_of_job job) seats.new list.new }
{
    if let Some(place) = find_seat(seats, number) {
        let seat = seats[place];
        seats[place] = Seat {
            job: Some(job),
            due: false,
            ..seat
        };
        list.add(place);
    }
}

/// Marks the seats of a job's members, and lists their places.
pub(crate) fn open(seats: &mut [Seat], list: &mut PlaceList, job: u64, members: &[Member])
    requires rise { Rise seats.old }
    requires listed { Lists (is_of_job job) seats.old list.old }
    ensures seats { seats.new ≡ map (seat_opened job members.now) seats.old }
    ensures listed { Lists (is_of_job job) seats.new list.new }
{
    for member in members {
        mark(seats, list, job, member.sub);
    }
}

/// Takes a job's mark away at a place, if there is a seat.
fn close_one(seats: &mut [Seat], place: usize, job: u64, due: bool)
    ensures same { map (seat_closed job due) seats.new ≡ map (seat_closed job due) seats.old }
    ensures rest { (places : List ℕ) → Covers (is_of_job job) seats.old (place ∷ places)
        → Covers (is_of_job job) seats.new places }
{
    if place < seats.len() {
        seats[place] = closed(seats[place], job, due);
    }
}

/// Takes a job's marks away at these places.
fn close_at(seats: &mut [Seat], places: &[usize], job: u64, due: bool)
    requires { Covers (is_of_job job) seats.old places.now }
    ensures { seats.new ≡ map (seat_closed job due) seats.old }
{
    for place in places {
        close_one(seats, *place, job, due);
    }
}

/// Takes a job's marks away; its live members become due where `due` is true.
pub(crate) fn close_listed(seats: &mut [Seat], list: &PlaceList, job: u64, due: bool)
    requires { Lists (is_of_job job) seats.old list.now }
    ensures { seats.new ≡ map (seat_closed job due) seats.old }
{
    match complete(list) {
        Some(places) => close_at(seats, places, job, due),
        None => close(seats, job, due),
    }
}

/// A list for a job that has none: complete where no job lacks a list, since no seat is marked with it then.
fn new_list(alloc: Global, unlisted: bool) -> PlaceList
    ensures { result.complete ≡ true → unlisted ≡ false }
{
    if unlisted {
        PlaceList::partial(alloc)
    } else {
        PlaceList::new(alloc)
    }
}

/// Takes a job's list out of the others, or makes one; `unlisted` says that jobs may lack one.
pub(crate) fn take_list(
    jobs: &mut BTreeMap<u64, PlaceList>,
    alloc: Global,
    job: u64,
    unlisted: bool,
) -> PlaceList
    ensures list { IsTaken job unlisted jobs.old result }
    ensures others { (k : ℕ) → (k ≡ job → ⊥) → get nat_cmp jobs.new k ≡ get nat_cmp jobs.old k }
    ensures gone { get nat_cmp jobs.new job ≡ None }
{
    match jobs.remove(&job) {
        Some(list) => list,
        None => new_list(alloc, unlisted),
    }
}

/// Puts a job's list to the others. It is false where memory was refused, and then there is none.
pub(crate) fn put_list(jobs: &mut BTreeMap<u64, PlaceList>, job: u64, list: PlaceList) -> bool
    requires { get nat_cmp jobs.old job ≡ None }
    ensures others { (k : ℕ) → (k ≡ job → ⊥) → get nat_cmp jobs.new k ≡ get nat_cmp jobs.old k }
    ensures there { result ≡ true → get nat_cmp jobs.new job ≡ Some list }
    ensures absent { result ≡ false → get nat_cmp jobs.new job ≡ None }
{
    match jobs.insert(job, list) {
        Ok(_none) => true,
        Err(_refused) => false,
    }
}

/// Whether jobs may lack a list, where they may have before or a job's list wasn't put to the others.
pub(crate) fn lacks(unlisted: bool, put: bool) -> bool
    ensures { result ≡ (unlisted || not put) }
{
    unlisted || !put
}

/// Lists the place behind all seats for the job of a new seat there, if it is a member of one. It says whether jobs may
/// lack a list.
pub(crate) fn list_member(
    jobs: &mut BTreeMap<u64, PlaceList>,
    alloc: Global,
    job: Option<u64>,
    place: usize,
    unlisted: bool,
) -> bool
    ensures listed { (seats : List Seat) (s : Seat) → s.job ≡ job → place ≡ length seats → JobsAreListed seats jobs.old
        → (unlisted ≡ false → JobsAreKnown seats jobs.old) → JobsAreListed (seats ++ s ∷ []) jobs.new }
    ensures known { (seats : List Seat) (s : Seat) → s.job ≡ job → place ≡ length seats
        → (unlisted ≡ false → JobsAreKnown seats jobs.old) → result ≡ false → JobsAreKnown (seats ++ s ∷ []) jobs.new }
{
    match job {
        Some(job) => {
            let mut list = take_list(jobs, alloc, job, unlisted);
            list.add(place);
            let put = put_list(jobs, job, list);
            lacks(unlisted, put)
        }
        None => unlisted,
    }
}
