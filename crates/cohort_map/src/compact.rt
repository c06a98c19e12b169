ghost use Rattle.std.specs.Prelude.{◌≡◌, ◌<◌, ◌≤◌, [], length, IfOk, OnOk};
ghost use Rattle.std.specs.List.{AllByRecursion};
ghost use Rattle.cohort_map.specs.Seats.{Rise, IsSound};
ghost use Rattle.cohort_map.specs.Copies.{IsCopied, Goes, Copies};
ghost use Rattle.cohort_map.specs.Polled.{ArePolled};

use crate::keys::Keys;
use crate::order::copy_key;
use crate::polled::{Pollers, list_all};
use crate::seat::{Seat, is_kept};
use crate::seats::Seats;
use scalar_val::NoMemory;
use std::alloc::Global;

/// How many seats aren't empty.
pub(crate) fn count_kept(seats: &[Seat]) -> usize {
    let mut count = 0usize;
    for seat in seats {
        if is_kept(seat) {
            count = count.saturating_add(1);
        }
    }
    count
}

/// Copies a seat behind others, to the cohort of an equal key.
fn copy_seat(
    alloc: Global,
    from: &Keys,
    seat: &Seat,
    keys: &mut Keys,
    seats: &mut Seats,
) -> Result<(), NoMemory>
    requires within { seat.now.cohort < length from.now }
    requires few { length keys.old ≤ seats.old.cohorts }
    requires sound { AllByRecursion (IsSound (length keys.old)) seats.old.seats }
    ensures { OnOk result (IsCopied from.now seat.now keys.old keys.new seats.old seats.new) }
{
    seats.make_cohort(keys.len())?;
    let key = copy_key(alloc, from.get(seat.cohort))?;
    let cohort = keys.place_of(alloc, key)?;
    let copy = Seat { cohort, ..*seat };
    seats.push(copy)?;
    Ok(())
}

/// The same, if it isn't empty.
fn copy_kept(
    alloc: Global,
    from: &Keys,
    seat: &Seat,
    keys: &mut Keys,
    seats: &mut Seats,
) -> Result<(), NoMemory>
    requires sound_seat { IsSound (length from.now) seat.now }
    requires few { length keys.old ≤ seats.old.cohorts }
    requires sound { AllByRecursion (IsSound (length keys.old)) seats.old.seats }
    ensures { OnOk result (Goes from.now seat.now keys.old keys.new seats.old seats.new) }
{
    if is_kept(seat) {
        copy_seat(alloc, from, seat, keys, seats)
    } else {
        Ok(())
    }
}

/// Copies the seats that aren't empty, and the keys of their cohorts.
fn copy_all(
    alloc: Global,
    from: &Keys,
    all: &[Seat],
    keys: &mut Keys,
    seats: &mut Seats,
) -> Result<(), NoMemory>
    requires rise { Rise all.now }
    requires sound { AllByRecursion (IsSound (length from.now)) all.now }
    requires no_keys { keys.old ≡ [] }
    requires no_seats { seats.old.seats ≡ [] }
    ensures { OnOk result (Copies from.now all.now keys.new seats.new) }
{
    for seat in all {
        copy_kept(alloc, from, seat, keys, seats)?;
    }
    Ok(())
}

/// The same, and the lists of their pollers.
pub(crate) fn copy_polled(
    alloc: Global,
    from: &Keys,
    all: &[Seat],
    keys: &mut Keys,
    seats: &mut Seats,
) -> Result<Pollers, NoMemory>
    requires rise { Rise all.now }
    requires sound { AllByRecursion (IsSound (length from.now)) all.now }
    requires no_keys { keys.old ≡ [] }
    requires no_seats { seats.old.seats ≡ [] }
    ensures copies { OnOk result (Copies from.now all.now keys.new seats.new) }
    ensures polled { IfOk result (λ pollers. ArePolled keys.new seats.new.seats pollers) }
{
    copy_all(alloc, from, all, keys, seats)?;
    list_all(alloc, keys, seats.as_slice())
}
