//! Receiving over a link, and the timeout.
ghost use Rattle.std.specs.Prelude.{◌≡◌, ◌⊎◌, true, false};
ghost use Rattle.connection_server.specs.Talks.{link_view};
ghost use Rattle.connection_server.specs.Steps.{is_late};
ghost use Rattle.connection_server.specs.Parts.{TakesIn, TakesOne};

use crate::end::End;
use crate::talk::{receive, tell};
use outside::{Clock, Link, LinkIn};
use std::alloc::Global;
use std::sync::Wait;
use subs_engine::{Engine, Event, Pass};

/// How long a connection may wait with its `connection_init`, in milliseconds.
const INIT_WAIT: u64 = 3000;

/// Takes the next item, and makes its event.
#[tactic(auto, using(crate::proofs::Receiving::takes_text, crate::proofs::Receiving::takes_binary, crate::proofs::Receiving::stops_text, crate::proofs::Receiving::stops_binary, crate::proofs::Receiving::takes_idle, crate::proofs::Receiving::stops_peer, crate::proofs::Receiving::stops_failed, crate::proofs::Receiving::stops_lost))]
fn take_item<R: Wait, K: Link>(
    rt: &R,
    alloc: Global,
    engine: &Engine,
    pass: &mut Pass,
    conn: u32,
    link: &mut K,
) -> Result<(), End>
    requires { (pass.old.lock ≡ engine.now) × (pass.old.has_turn ≡ false) }
    ensures { TakesOne conn pass.old pass.new
        (link_view (K.coming link.old) (K.sent link.old) (K.faults link.old))
        (link_view (K.coming link.new) (K.sent link.new) (K.faults link.new)) result }
{
    match receive(link) {
        LinkIn::Text(text) => match tell(rt, alloc, engine, pass, Event::Text(conn, text)) {
            Ok(_) => Ok(()),
            Err(end) => Err(end),
        },
        LinkIn::Binary => match tell(rt, alloc, engine, pass, Event::Binary(conn)) {
            Ok(_) => Ok(()),
            Err(end) => Err(end),
        },
        LinkIn::Idle => Ok(()),
        LinkIn::PeerClosed => Err(End::PeerClosed),
        LinkIn::Failed => Err(End::LinkFault),
        LinkIn::NoMemory => Err(End::NoMemory),
    }
}

/// Whether the one timeout is to be made: a time is 3,000 or more above the start, for the first time.
fn is_due(late: bool, start: u64, now: u64) -> bool
    ensures yes { result ≡ true → (late ≡ false) × (is_late start now ≡ true) }
    ensures no { result ≡ false → (late ≡ true) ⊎ (is_late start now ≡ false) }
{
    !late && now >= start && now - start >= INIT_WAIT
}

/// Asks the clock, and makes the one timeout where it is due; else it takes the next item.
#[tactic(auto, using(crate::proofs::Receiving::takes_in_item, crate::proofs::Receiving::serves_timeout, crate::proofs::Receiving::ends_timeout))]
pub(crate) fn take_in<R: Wait, K: Link, C: Clock>(
    rt: &R,
    alloc: Global,
    engine: &Engine,
    pass: &mut Pass,
    conn: u32,
    start: u64,
    late: &mut bool,
    link: &mut K,
    clock: &mut C,
) -> Result<(), End>
    requires { (pass.old.lock ≡ engine.now) × (pass.old.has_turn ≡ false) }
    ensures { TakesIn conn start pass.old pass.new
        (link_view (K.coming link.old) (K.sent link.old) (K.faults link.old))
        (link_view (K.coming link.new) (K.sent link.new) (K.faults link.new))
        (C.tells clock.old) (C.tells clock.new) late.old late.new result }
{
    let now = clock.now_ms();
    if is_due(*late, start, now) {
        match tell(rt, alloc, engine, pass, Event::Timeout(conn)) {
            Ok(_) => {
                *late = true;
                return Ok(());
            }
            Err(end) => return Err(end),
        }
    }
    take_item(rt, alloc, engine, pass, conn, link)
}
