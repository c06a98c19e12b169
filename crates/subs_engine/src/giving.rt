//! Giving the hub back with the event that it made.
ghost use Rattle.std.specs.Prelude.{◌≡◌, ◌++◌, [], ◌∷◌, true, false};
ghost use Rattle.history_lock.specs.History.{entry, events};
ghost use Rattle.machine.specs.State.{Receive};
ghost use Rattle.hub_model.specs.Stands.{StandsFor};
ghost use Rattle.subs_engine.specs.Events.{event_of};
ghost use Rattle.subs_engine.specs.Others.{event_of_other};

use crate::engine::Pass;
use history_lock::{HistoryLock, Made, Turn};
use hub::{Event, Hub, Said};
use std::marker::{Brand, PhantomData};

// Which event it was. It has no bounds, so that a call can name it.
trait Which {
    ghost use Rattle.machine.specs.State.{Event};

    ghost event: { Event };
}

impl Which for Brand {
    ghost use Rattle.machine.specs.State.{Skip};

    ghost event = { Skip };
}

struct Picked<K> {
    which: PhantomData<K>,
}

impl<K: Which> Made<Hub> for Picked<K> {
    ghost event = { K.event };
}

/// The events that aren't those of `Engine::call`.
#[derive(Clone, Copy)]
pub(crate) enum Other {
    Take,
    Publish(u64),
    Skip,
}

fn give_event_as<K: Which>(lock: &HistoryLock<Hub>, pass: &mut Pass, turn: Turn<Hub>, event: &Event)
    requires pick { K.event ≡ event_of event.now }
    requires pass { (pass.old.lock ≡ lock.now) × (pass.old.has_turn ≡ true) }
    requires state { StandsFor turn (events pass.old.seen ++ event_of event.now ∷ []) × (turn.meta ≡ pass.old.basis) }
    ensures { pass.new ≡ record pass.old {
      seen = pass.old.seen ++ entry pass.old.number (event_of event.now) ∷ [];
      has_turn = false;
    } }
{
    lock.give::<Picked<K>>(pass, turn);
}

pub(crate) fn give_event(lock: &HistoryLock<Hub>, pass: &mut Pass, turn: Turn<Hub>, event: &Event)
    requires pass { (pass.old.lock ≡ lock.now) × (pass.old.has_turn ≡ true) }
    requires state { StandsFor turn (events pass.old.seen ++ event_of event.now ∷ []) × (turn.meta ≡ pass.old.basis) }
    ensures { pass.new ≡ record pass.old {
      seen = pass.old.seen ++ entry pass.old.number (event_of event.now) ∷ [];
      has_turn = false;
    } }
{
    give_event_as::<Brand>(lock, pass, turn, event);
}

fn give_said_as<K: Which>(
    lock: &HistoryLock<Hub>,
    pass: &mut Pass,
    turn: Turn<Hub>,
    conn: u32,
    said: &Said,
)
    requires pick { K.event ≡ Receive conn said.now }
    requires pass { (pass.old.lock ≡ lock.now) × (pass.old.has_turn ≡ true) }
    requires state { StandsFor turn (events pass.old.seen ++ Receive conn said.now ∷ [])
        × (turn.meta ≡ pass.old.basis) }
    ensures { pass.new ≡ record pass.old {
      seen = pass.old.seen ++ entry pass.old.number (Receive conn said.now) ∷ [];
      has_turn = false;
    } }
{
    let _conn = conn;
    lock.give::<Picked<K>>(pass, turn);
}

/// The event of a text.
pub(crate) fn give_said(
    lock: &HistoryLock<Hub>,
    pass: &mut Pass,
    turn: Turn<Hub>,
    conn: u32,
    said: &Said,
)
    requires pass { (pass.old.lock ≡ lock.now) × (pass.old.has_turn ≡ true) }
    requires state { StandsFor turn (events pass.old.seen ++ Receive conn said.now ∷ [])
        × (turn.meta ≡ pass.old.basis) }
    ensures { pass.new ≡ record pass.old {
      seen = pass.old.seen ++ entry pass.old.number (Receive conn said.now) ∷ [];
      has_turn = false;
    } }
{
    give_said_as::<Brand>(lock, pass, turn, conn, said);
}

fn give_other_as<K: Which>(lock: &HistoryLock<Hub>, pass: &mut Pass, turn: Turn<Hub>, other: Other)
    requires pick { K.event ≡ event_of_other other }
    requires pass { (pass.old.lock ≡ lock.now) × (pass.old.has_turn ≡ true) }
    requires state { StandsFor turn (events pass.old.seen ++ event_of_other other ∷ []) × (turn.meta ≡ pass.old.basis) }
    ensures { pass.new ≡ record pass.old {
      seen = pass.old.seen ++ entry pass.old.number (event_of_other other) ∷ [];
      has_turn = false;
    } }
{
    let _other = other;
    lock.give::<Picked<K>>(pass, turn);
}

pub(crate) fn give_other(lock: &HistoryLock<Hub>, pass: &mut Pass, turn: Turn<Hub>, other: Other)
    requires pass { (pass.old.lock ≡ lock.now) × (pass.old.has_turn ≡ true) }
    requires state { StandsFor turn (events pass.old.seen ++ event_of_other other ∷ []) × (turn.meta ≡ pass.old.basis) }
    ensures { pass.new ≡ record pass.old {
      seen = pass.old.seen ++ entry pass.old.number (event_of_other other) ∷ [];
      has_turn = false;
    } }
{
    give_other_as::<Brand>(lock, pass, turn, other);
}
