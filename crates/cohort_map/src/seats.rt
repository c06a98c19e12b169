ghost use Rattle.std.specs.Prelude.{◌≡◌, ◌<◌, ◌≤◌, ◌++◌, ◌∷◌, [], None, map, filter, find, length, IfOk, IfSome, IfNone, OnOk, OnErr};
ghost use Rattle.std.specs.List.{list_any, AllByRecursion};
ghost use Rattle.cohort_map.specs.Seats.{Rise, IsCut, EndsKept, IsWithin, is_at, at, seat_numbers, seat_ended, seat_opened, seat_closed, seat_moved, seat_ticked, seat_due, is_live_in, is_cohort_busy};

use crate::gathered::{gather, in_order, lowered, next_due, start_of};
use crate::listed::{
    add_place, close_listed, is_any_busy, known, lacks, list_member, live_numbers, move_to, open,
    put_list, sweep, take_list,
};
use crate::member::{Member, SubList};
use crate::seat::{Seat, cohort_of, drop_empty_end, end, is_busy, live_in, make_flag, tick};
use place_list::PlaceList;
use scalar_val::NoMemory;
use std::alloc::Global;
use std::collections::BTreeMap;
use std::marker::Model;

/// The seats of a map in order of number, with lists of the places of each cohort's seats and of each open job's. Contracts
/// see the seats, and how many cohorts can have one. A list has all places that it should, and maybe stale ones; where memory
/// was refused for one, there is none, or it isn't complete, and all seats are walked in its place.
#[derive(Drop)]
pub(crate) struct Seats {
    alloc: Global,
    seats: Vec<Seat>,
    lists: Vec<PlaceList>,
    /// One for each cohort and of no meaning between calls.
    flags: Vec<bool>,
    jobs: BTreeMap<u64, PlaceList>,
    /// Whether a job may have no list, since memory was refused.
    unlisted: bool,
    /// No due seat is before this place.
    first: usize,
}

impl Model for Seats {
    ghost use Rattle.cohort_map.specs.Listed.{Seating};

    ghost Value = { Seating };

    ghost use Rattle.cohort_map.specs.Listed.{seating, IsListed};

    ghost view = { seating };

    ghost invariant = { IsListed };
}

impl Seats {
    ghost use Rattle.cohort_map.specs.Listed.{IsFirstDue, HasPlaces};

    pub(crate) fn new(alloc: Global) -> Seats
        ensures seats { result.seats ≡ [] }
    {
        Seats {
            alloc,
            seats: Vec::new(alloc),
            lists: Vec::new(alloc),
            flags: Vec::new(alloc),
            jobs: BTreeMap::new(alloc),
            unlisted: false,
            first: 0,
        }
    }

    pub(crate) fn as_slice(&self) -> &[Seat]
        ensures { result.now ≡ self.now.seats }
    {
        self.seats.as_slice()
    }

    /// Makes sure that one cohort more than so many can have seats.
    pub(crate) fn make_cohort(&mut self, count: usize) -> Result<(), NoMemory>
        requires count { count ≤ self.old.cohorts }
        requires within { AllByRecursion (IsWithin count) self.old.seats }
        ensures seats { self.new.seats ≡ self.old.seats }
        ensures ok { OnOk result (count < self.new.cohorts) }
        ensures kept { self.old.cohorts ≤ self.new.cohorts }
    {
        if count < self.lists.len() {
            return Ok(());
        }
        make_flag(&mut self.flags, count)?;
        self.lists.push(PlaceList::new(self.alloc))?;
        Ok(())
    }

    /// Drops the empty seats at the end.
    pub(crate) fn drop_empty_end(&mut self)
        ensures cut { IsCut self.old.seats self.new.seats }
        ensures end { EndsKept self.new.seats }
        ensures cohorts { self.new.cohorts ≡ self.old.cohorts }
    {
        drop_empty_end(&mut self.seats);
    }

    pub(crate) fn push(&mut self, seat: Seat) -> Result<(), NoMemory>
        requires { seat.cohort < self.old.cohorts }
        ensures ok { OnOk result (self.new.seats ≡ self.old.seats ++ seat ∷ []) }
        ensures err { OnErr result (self.new.seats ≡ self.old.seats) }
        ensures cohorts { self.new.cohorts ≡ self.old.cohorts }
    {
        let place = self.seats.len();
        self.seats.push(seat)?;
        add_place(&mut self.lists, seat.cohort, place);
        self.unlisted = list_member(&mut self.jobs, self.alloc, seat.job, place, self.unlisted);
        self.first = start_of(self.first, seat.due);
        Ok(())
    }

    /// A seat of a cohort became empty or was moved away, so that its place in the list is stale.
    fn note_stale(&mut self, cohort: usize)
        ensures { self.new ≡ self.old }
    {
        sweep(&mut self.lists, &self.seats, cohort);
    }

    /// Ends a number's subscription. It is false where the number has no seat.
    pub(crate) fn end(&mut self, number: u64) -> bool
        requires { Rise self.old.seats }
        ensures seats { self.new.seats ≡ map (at number seat_ended) self.old.seats }
        ensures cohorts { self.new.cohorts ≡ self.old.cohorts }
        ensures answer { result ≡ list_any (is_at number) self.old.seats }
    {
        let cohort = cohort_of(&self.seats, number);
        let ended = end(&mut self.seats, number);
        if let Some(cohort) = cohort {
            self.note_stale(cohort);
        }
        ended
    }

    /// Marks the seats of a job's members.
    pub(crate) fn open(&mut self, job: u64, members: &[Member])
        requires { Rise self.old.seats }
        ensures seats { self.new.seats ≡ map (seat_opened job members.now) self.old.seats }
        ensures cohorts { self.new.cohorts ≡ self.old.cohorts }
    {
        let mut list = take_list(&mut self.jobs, self.alloc, job, self.unlisted);
        open(&mut self.seats, &mut list, job, members);
        let put = put_list(&mut self.jobs, job, list);
        self.unlisted = lacks(self.unlisted, put);
        self.first = next_due(&self.seats, self.first);
    }

    /// Takes a job's marks away; its live members become due where `due` is true.
    pub(crate) fn close(&mut self, job: u64, due: bool)
        ensures seats { self.new.seats ≡ map (seat_closed job due) self.old.seats }
        ensures cohorts { self.new.cohorts ≡ self.old.cohorts }
    {
        let list = take_list(&mut self.jobs, self.alloc, job, self.unlisted);
        close_listed(&mut self.seats, &list, job, due);
        self.first = lowered(self.first, &list, due);
    }

    /// Moves a number's seat, if it isn't empty, to the cohort of another key.
    pub(crate) fn move_to(&mut self, number: u64, cohort: usize)
        requires rise { Rise self.old.seats }
        requires within { cohort < self.old.cohorts }
        ensures seats { self.new.seats ≡ map (at number (seat_moved cohort)) self.old.seats }
        ensures cohorts { self.new.cohorts ≡ self.old.cohorts }
    {
        let before = move_to(&mut self.seats, &mut self.lists, number, cohort);
        if let Some(before) = before {
            self.note_stale(before);
        }
    }

    /// Makes the live subscriptions due whose cohorts have no member in an open job, and no others. It gives their number.
    pub(crate) fn tick(&mut self) -> u64
        requires { AllByRecursion (IsWithin self.old.cohorts) self.old.seats }
        ensures seats { self.new.seats ≡ map (seat_ticked self.old.seats) self.old.seats }
        ensures count { result ≡ length (filter seat_due self.new.seats) }
        ensures cohorts { self.new.cohorts ≡ self.old.cohorts }
    {
        let count = tick(&mut self.seats, &mut self.flags);
        self.first = next_due(&self.seats, 0);
        count
    }

    /// The place of the least due number's seat.
    pub(crate) fn first_due(&self) -> Option<usize>
        ensures some { IfSome result (IsFirstDue self.now.seats) }
        ensures none { IfNone result (find seat_due self.now.seats ≡ None) }
    {
        let place = next_due(&self.seats, self.first);
        if place < self.seats.len() {
            Some(place)
        } else {
            None
        }
    }

    /// In ascending order all places of these cohorts' seats, and maybe others; `None` where a list isn't complete.
    pub(crate) fn places_of(
        &self,
        alloc: Global,
        cohorts: &[usize],
    ) -> Result<Option<Vec<usize>>, NoMemory>
        ensures { IfOk result (λ found. IfSome found (λ places. HasPlaces self.now.seats cohorts.now places.items)) }
    {
        let found = gather(alloc, &self.lists, cohorts)?;
        match found {
            Some(places) => Ok(Some(in_order(places))),
            None => Ok(None),
        }
    }

    /// The live numbers of a cohort.
    pub(crate) fn live_in(&self, alloc: Global, cohort: usize) -> Result<SubList, NoMemory>
        ensures { IfOk result (λ subs. subs ≡ seat_numbers (filter (is_live_in cohort) self.now.seats)) }
    {
        match known(&self.lists, cohort) {
            Some(places) => live_numbers(alloc, &self.seats, places, cohort),
            None => live_in(alloc, &self.seats, cohort),
        }
    }

    /// Whether a cohort has a member in an open job.
    pub(crate) fn is_busy(&self, cohort: usize) -> bool
        ensures { result ≡ is_cohort_busy self.now.seats cohort }
    {
        match known(&self.lists, cohort) {
            Some(places) => is_any_busy(&self.seats, places, cohort),
            None => is_busy(&self.seats, cohort),
        }
    }
}
