ghost use Rattle.std.specs.Prelude.{◌≡◌, ◌<◌, ◌≤◌, ◌||◌, ℕ, Bool, true, false, Some, None, map, filter, find, filter_map, length, take, drop, slice_get, slice_index_or, IfOk, IfSome, IfNone, OnOk};
ghost use Rattle.std.specs.List.{list_any, AllByRecursion};
ghost use Rattle.cohort_map.specs.Batches.{is_job};
ghost use Rattle.cohort_map.specs.Seats.{Rise, HasSeat, IsCohortOf, IsCut, AreEmpty, EndsKept, AreBelow, AreFrom, is_kept, is_at, is_live_at, at, seat_live, seat_numbers, seat_ended, seat_marked, seat_opened, seat_closed, seat_due, seat_due_by, seat_moved, seat_ticked, IsWithin, is_live_in, is_cohort_busy, has_job_in, member_seen};

use crate::member::SubList;
use scalar_val::NoMemory;
use std::alloc::Global;

/// What the map holds of a number that joined: the place of its cohort's key, whether it is live and due, and the open job
/// that it is a member of. The seat is empty where it is neither live nor a member.
#[derive(Clone, Copy, Debug)]
pub(crate) struct Seat {
    pub(crate) number: u64,
    pub(crate) cohort: usize,
    pub(crate) live: bool,
    pub(crate) due: bool,
    pub(crate) job: Option<u64>,
}

/// A number, and the place of the key of the cohort to which it can be moved.
#[derive(Clone, Copy, Debug)]
pub(crate) struct ReadySeat {
    pub(crate) number: u64,
    pub(crate) cohort: usize,
}

pub(crate) fn is_kept(seat: &Seat) -> bool
    ensures { result ≡ is_kept seat.now }
{
    seat.live || seat.job.is_some()
}

/// The place of the first seat whose number isn't below.
fn place_from(seats: &[Seat], number: u64) -> usize
    requires { Rise seats.now }
    ensures within { result ≤ length seats.now }
    ensures below { AreBelow number seats.now result }
    ensures rest { AreFrom number seats.now result }
{
    let mut low = 0;
    let mut high = seats.len();
    while low < high {
        let middle = low + (high - low) / 2;
        if seats[middle].number < number {
            low = middle + 1;
        } else {
            high = middle;
        }
    }
    low
}

/// The place of a number's seat, if it isn't empty.
pub(crate) fn find_seat(seats: &[Seat], number: u64) -> Option<usize>
    requires { Rise seats.now }
    ensures some { IfSome result (HasSeat number seats.now) }
    ensures none { IfNone result (list_any (is_at number) seats.now ≡ false) }
{
    let place = place_from(seats, number);
    if place < seats.len() && seats[place].number == number && is_kept(&seats[place]) {
        Some(place)
    } else {
        None
    }
}

/// The cohort of a number, if its seat isn't empty.
pub(crate) fn cohort_of(seats: &[Seat], number: u64) -> Option<usize>
    requires { Rise seats.now }
    ensures some { IfSome result (IsCohortOf number seats.now) }
    ensures none { IfNone result (find (is_at number) seats.now ≡ None) }
{
    match find_seat(seats, number) {
        Some(place) => Some(seats[place].cohort),
        None => None,
    }
}

/// Whether a number has a seat that isn't empty.
pub(crate) fn has_seat(seats: &[Seat], number: u64) -> bool
    requires { Rise seats.now }
    ensures { result ≡ list_any (is_at number) seats.now }
{
    match find_seat(seats, number) {
        Some(_place) => true,
        None => false,
    }
}

/// Whether a number has a live seat.
pub(crate) fn is_live(seats: &[Seat], number: u64) -> bool
    requires { Rise seats.now }
    ensures { result ≡ list_any (is_live_at number) seats.now }
{
    match find_seat(seats, number) {
        Some(place) => seats[place].live,
        None => false,
    }
}

/// How many seats there are up to the last one that isn't empty.
fn kept_end(seats: &[Seat]) -> usize
    ensures within { result ≤ length seats.now }
    ensures empty { AreEmpty (drop result seats.now) }
    ensures end { EndsKept (take result seats.now) }
{
    let mut end = seats.len();
    while end > 0 {
        if is_kept(&seats[end - 1]) {
            return end;
        }
        end -= 1;
    }
    end
}

/// Drops the empty seats at the end.
pub(crate) fn drop_empty_end(seats: &mut Vec<Seat>)
    ensures cut { IsCut seats.old.items seats.new.items }
    ensures end { EndsKept seats.new.items }
{
    let end = kept_end(seats);
    seats.truncate(end);
}

/// Ends a number's subscription. It is false where the number has no seat.
pub(crate) fn end(seats: &mut [Seat], number: u64) -> bool
    requires { Rise seats.old }
    ensures seats { seats.new ≡ map (at number seat_ended) seats.old }
    ensures answer { result ≡ list_any (is_at number) seats.old }
{
    match find_seat(seats, number) {
        Some(place) => {
            let seat = seats[place];
            seats[place] = Seat {
                live: false,
                due: false,
                ..seat
            };
            true
        }
        None => false,
    }
}

fn is_of_job(seat: &Seat, job: u64) -> bool
    ensures { result ≡ is_job job seat.now.job }
{
    match seat.job {
        Some(other) => other == job,
        None => false,
    }
}

pub(crate) fn closed(seat: Seat, job: u64, due: bool) -> Seat
    ensures { result ≡ seat_closed job due seat }
{
    if is_of_job(&seat, job) {
        Seat {
            job: None,
            due: seat.live && (seat.due || due),
            ..seat
        }
    } else {
        seat
    }
}

/// Takes a job's marks away; its live members become due where `due` is true.
pub(crate) fn close(seats: &mut [Seat], job: u64, due: bool)
    ensures { seats.new ≡ map (seat_closed job due) seats.old }
{
    for place in 0..seats.len() {
        seats[place] = closed(seats[place], job, due);
    }
}

/// Makes sure that there is a flag for each of so many cohorts and one more.
pub(crate) fn make_flag(flags: &mut Vec<bool>, count: usize) -> Result<(), NoMemory>
    requires { count ≤ length flags.old.items }
    ensures ok { OnOk result (count < length flags.new.items) }
    ensures kept { length flags.old.items ≤ length flags.new.items }
{
    if flags.len() == count {
        flags.push(false)?;
    }
    Ok(())
}

fn clear(flags: &mut [bool])
    ensures { flags.new ≡ map (λ _. false) flags.old }
{
    for place in 0..flags.len() {
        flags[place] = false;
    }
}

/// Notes the cohorts that have a member in an open job.
fn note_busy(seats: &[Seat], busy: &mut [bool])
    requires { AllByRecursion (IsWithin (length busy.old)) seats.now }
    ensures len { length busy.new ≡ length busy.old }
    ensures noted { (cohort : ℕ) → cohort < length busy.old
        → slice_index_or busy.new cohort false ≡ (slice_index_or busy.old cohort false || is_cohort_busy seats.now cohort) }
{
    for seat in seats {
        if seat.job.is_some() {
            busy[seat.cohort] = true;
        }
    }
}

fn due_by(seat: Seat, busy: &[bool]) -> Seat
    requires { seat.cohort < length busy.now }
    ensures { result ≡ seat_due_by busy.now seat }
{
    Seat {
        due: seat.live && !busy[seat.cohort],
        ..seat
    }
}

/// Makes the live subscriptions due whose cohorts aren't noted, and no others.
fn set_due(seats: &mut [Seat], busy: &[bool])
    requires { AllByRecursion (IsWithin (length busy.now)) seats.old }
    ensures { seats.new ≡ map (seat_due_by busy.now) seats.old }
{
    for place in 0..seats.len() {
        seats[place] = due_by(seats[place], busy);
    }
}

/// Makes the live subscriptions due whose cohorts have no member in an open job, and no others. It gives their number.
/// The flags are one for each cohort, and of no meaning before and after.
pub(crate) fn tick(seats: &mut [Seat], busy: &mut [bool]) -> u64
    requires { AllByRecursion (IsWithin (length busy.old)) seats.old }
    ensures seats { seats.new ≡ map (seat_ticked seats.old) seats.old }
    ensures count { result ≡ length (filter seat_due seats.new) }
    ensures len { length busy.new ≡ length busy.old }
{
    clear(busy);
    note_busy(seats, busy);
    set_due(seats, busy);
    count_due(seats)
}

/// How many seats are due.
pub(crate) fn count_due(seats: &[Seat]) -> u64
    ensures { result ≡ length (filter seat_due seats.now) }
{
    let mut count = 0;
    for seat in seats {
        if seat.due {
            count += 1;
        }
    }
    count
}

/// How many seats are live.
pub(crate) fn count_live(seats: &[Seat]) -> u64
    ensures { result ≡ length (filter seat_live seats.now) }
{
    let mut count = 0;
    for seat in seats {
        if seat.live {
            count += 1;
        }
    }
    count
}

/// Whether a cohort has a member in an open job.
pub(crate) fn is_busy(seats: &[Seat], cohort: usize) -> bool
    ensures { result ≡ is_cohort_busy seats.now cohort }
{
    for seat in seats {
        if seat.cohort == cohort && seat.job.is_some() {
            return true;
        }
    }
    false
}

/// The live numbers of a cohort.
pub(crate) fn live_in(alloc: Global, seats: &[Seat], cohort: usize) -> Result<SubList, NoMemory>
    ensures { IfOk result (λ subs. subs ≡ seat_numbers (filter (is_live_in cohort) seats.now)) }
{
    let mut subs = SubList::new(alloc);
    for seat in seats {
        if seat.live && seat.cohort == cohort {
            subs.push(seat.number).map_err(|_| NoMemory)?;
        }
    }
    Ok(subs)
}
