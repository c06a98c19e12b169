//! The steps of the lock on its table. None of them takes memory.
ghost use Rattle.std.specs.Prelude.{◌≡◌, ℕ, ◌+◌, ◌^◌, ◌<◌, ◌≤◌, [], ◌∷◌, ◌++◌, length, Some, None, true, false};
ghost use Rattle.std.specs.Prelude.{IfOk, IfErr, IfSome, IfNone, MatchResult};
ghost use Rattle.history_lock.specs.History.{entry, events, own, Extends};
ghost use Rattle.history_lock.specs.Views.{with_ticket, given};
ghost use Rattle.history_lock.specs.Rule.{AtHome, word_count};
ghost use Rattle.history_lock.specs.Seats.{seen, IsOf, IsServed, HasTurn, Sees};

use crate::known::{PassSeat, StateTable};
use crate::plays::{Draw, Look, Put, Raise, Ring, Take};
use crate::stands::{Made, Stands};
use std::hint::spin_loop;
use std::sync::Wait;

// The words of the table: how many tickets are drawn, which one is served, 1 while the state is in its slot, and bells.
pub(crate) const TICKET: usize = 0;

const SERVING: usize = 1;

pub(crate) const HOME: usize = 2;

const FIRST_BELL: usize = 3;

// So many that few threads that wait share one.
const BELLS: u64 = 1024;

pub(crate) const WORDS: usize = 1027;

// The slot of the state.
const STATE: usize = 0;

/// How many turns a lock has.
pub(crate) const TURNS: u64 = 1 << 62;

// How often a thread that is next looks before it sleeps, which takes about as long as some short turns.
const LOOKS: u32 = 50;

// The bell that those with this ticket sleep on.
fn bell_of(ticket: u64) -> usize
    ensures { (3 ≤ result) × (result < word_count) }
{
    FIRST_BELL + (ticket % BELLS) as usize
}

// How a thread waits between two looks at the table.
#[derive(Drop)]
struct Waiter {
    ticket: u64,
    // What the ticket's bell was before the last look.
    rung: u64,
    looks: u32,
}

impl Waiter {
    fn new(ticket: u64) -> Waiter {
        Waiter {
            ticket,
            rung: 0,
            looks: LOOKS,
        }
    }

    // A thread that isn't next looks twice and then sleeps.
    fn is_far(&mut self) {
        self.looks = self.looks.min(1);
    }

    // Comes back at once while there are looks left, and after that once the bell was rung.
    fn pause<S: Stands, R: Wait>(&mut self, rt: &R, table: &StateTable<S>)
        requires { table.now.shared.table_id.words ≡ word_count }
    {
        let bell = bell_of(self.ticket);
        if self.looks > 0 {
            self.looks -= 1;
            spin_loop();
        } else {
            table.shared.park(rt, bell, (self.rung % (1 << 32)) as u32);
        }
        // A bell is rung after what is waited for, so a ring that the next look comes before ends the sleep.
        self.rung = table.shared.peek(bell);
    }
}

// Draws a ticket, if one is left. Others may draw meanwhile, and then it tries again.
pub(crate) fn draw<S: Stands, R: Wait>(
    rt: &R,
    table: &StateTable<S>,
    seat: &mut PassSeat<S>,
) -> Option<u64>
    requires { IsOf table.now.shared.table_id seat.old × (seat.old.me.0.ticket ≡ None) }
    ensures same { seat.new.table_id ≡ seat.old.table_id }
    ensures some { IfSome result (λ t.
        (seat.new.me ≡ (with_ticket seat.old.me.0 (Some t), seat.old.me.1)) × (t < 2 ^ 62)) }
    ensures none { IfNone result (seat.new.me ≡ seat.old.me) }
{
    for _ in rt.forever() {
        let ticket = table.shared.peek(TICKET);
        if ticket >= TURNS {
            return None;
        }
        let found = table
            .shared
            .compare_exchange::<Draw>(seat, TICKET, ticket, ticket + 1);
        if found == ticket {
            return Some(ticket);
        }
    }
    unreachable!()
}

// Sees the history, and answers how many entries it has.
fn look<S: Stands>(table: &StateTable<S>, seat: &mut PassSeat<S>) -> u64
    requires { IsOf table.now.shared.table_id seat.old × (seat.old.me.0.spent ≡ false) }
    ensures sees { Sees seat.old seat.new }
    ensures long { result ≡ length (seen seat.new) }
{
    table.shared.load::<Look>(seat, SERVING)
}

// Waits until the history has this many entries.
pub(crate) fn wait_for<S: Stands, R: Wait>(
    rt: &R,
    table: &StateTable<S>,
    seat: &mut PassSeat<S>,
    count: u64,
)
    requires { IsOf table.now.shared.table_id seat.old × (seat.old.me.0.spent ≡ false) }
    ensures sees { Sees seat.old seat.new }
    ensures long { count ≡ length (seen seat.new) }
{
    let mut waiter = Waiter::new(count);
    for _ in rt.forever() {
        let served = look(table, seat);
        if served == count {
            return;
        }
        if count.wrapping_sub(served) > 1 {
            waiter.is_far();
        }
        waiter.pause(rt, table);
    }
    unreachable!()
}

// Takes the state out of its slot, if it is there.
fn take_out<S: Stands>(table: &StateTable<S>, seat: &mut PassSeat<S>, ticket: u64) -> Option<S>
    requires table { IsOf table.now.shared.table_id seat.old × (seat.old.me.0.spent ≡ false) }
    requires ticket { IsServed seat.old ticket }
    ensures same { seat.new.table_id ≡ seat.old.table_id }
    ensures slot { IfSome result (λ x. seat.new.me ≡ (seat.old.me.0, (0, None) ∷ [])) }
    ensures state { IfSome result (λ x. AtHome S.stands S.basis seat.old.me.0.basis (seen seat.old) x) }
    ensures none { IfNone result (seat.new.me ≡ seat.old.me) }
{
    if table.shared.compare_exchange::<Take>(seat, HOME, 1, 0) != 1 {
        return None;
    }
    table.shared.exchange(seat, STATE, None)
}

// Puts the state into its slot.
fn bring_home<S: Stands>(table: &StateTable<S>, seat: &mut PassSeat<S>, state: S)
    requires table { IsOf table.now.shared.table_id seat.old × (seat.old.me.0.spent ≡ false) }
    requires slot { seat.old.me.1 ≡ (0, None) ∷ [] }
    requires state { AtHome S.stands S.basis seat.old.me.0.basis (seen seat.old) state }
    ensures { (seat.new.table_id ≡ seat.old.table_id) × (seat.new.me ≡ (seat.old.me.0, [])) }
{
    let before = table.shared.exchange(seat, STATE, Some(state));
    let None = before else { unreachable!() };
    table.shared.store::<Put>(seat, HOME, 1);
}

// Takes the state, where the pass's ticket is served. The pass before may still be about to put it home.
pub(crate) fn take<S: Stands, R: Wait>(
    rt: &R,
    table: &StateTable<S>,
    seat: &mut PassSeat<S>,
    ticket: u64,
) -> S
    requires table { IsOf table.now.shared.table_id seat.old × (seat.old.me.0.spent ≡ false) }
    requires ticket { IsServed seat.old ticket }
    ensures same { (seat.new.table_id ≡ seat.old.table_id) × (seat.new.me ≡ (seat.old.me.0, (0, None) ∷ [])) }
    ensures state { S.stands result (events (seen seat.old)) × (S.basis result ≡ seat.old.me.0.basis) }
{
    let mut waiter = Waiter::new(ticket);
    for _ in rt.forever() {
        let Some(state) = take_out(table, seat, ticket) else {
            waiter.pause(rt, table);
            continue;
        };
        if state.count() == ticket {
            return state;
        }
        bring_home(table, seat, state);
    }
    unreachable!()
}

// The one event: raises the word, and then puts the state home.
pub(crate) fn raise<S: Stands, M: Made<S>>(table: &StateTable<S>, seat: &mut PassSeat<S>, state: S)
    requires table { IsOf table.now.shared.table_id seat.old × (seat.old.me.0.spent ≡ false) }
    requires turn { HasTurn seat.old }
    requires state { S.stands state (events (seen seat.old) ++ M.event ∷ []) × (S.basis state ≡ seat.old.me.0.basis) }
    ensures same { seat.new.table_id ≡ seat.old.table_id }
    ensures entry { (n : ℕ) → seat.old.me.0.number ≡ Some n → seat.new.me ≡ (given seat.old.me.0 n M.event, []) }
{
    table.shared.fetch_add::<Raise<M>>(seat, SERVING, 1);
    bring_home(table, seat, state);
}

// Wakes the thread whose ticket is served, if it may be asleep, and those few that share its bell.
pub(crate) fn ring<S: Stands>(table: &StateTable<S>, seat: &mut PassSeat<S>)
    requires { IsOf table.now.shared.table_id seat.old }
    ensures { (seat.new.table_id ≡ seat.old.table_id) × (seat.new.me ≡ seat.old.me) }
{
    // In this order: a ticket drawn later finds the word as it was read here, or higher.
    let served = table.shared.peek(SERVING);
    let drawn = table.shared.peek(TICKET);
    // Those who find no ticket left wait for the last one to be served.
    if drawn != served || drawn == TURNS {
        let bell = bell_of(served);
        table.shared.fetch_add::<Ring>(seat, bell, 1);
        table.shared.wake_all(bell);
    }
}
