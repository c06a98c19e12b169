//! Serving a connection.
ghost use Rattle.std.specs.Prelude.{◌≡◌, false};
ghost use Rattle.connection_server.specs.Talks.{link_view};
ghost use Rattle.connection_server.specs.Sessions.{Served};
ghost use Rattle.connection_server.specs.Parts.{Connects, Departs, Runs};

use crate::drain::drain_all;
use crate::end::End;
use crate::intake::take_in;
use crate::talk::tell;
use outside::{Clock, Link};
use std::alloc::Global;
use std::sync::Wait;
use subs_engine::{ConnReply, Engine, Event, Pass};

/// Makes the connection known.
#[tactic(auto, using(crate::proofs::Running::refuses_known, crate::proofs::Running::opens_made, crate::proofs::Running::refuses_ends))]
fn open<R: Wait>(
    rt: &R,
    alloc: Global,
    engine: &Engine,
    pass: &mut Pass,
    conn: u32,
) -> Result<(), End>
    requires { (pass.old.lock ≡ engine.now) × (pass.old.has_turn ≡ false) }
    ensures { Connects conn pass.old pass.new result }
{
    match tell(rt, alloc, engine, pass, Event::Connect(conn)) {
        Ok(ConnReply::ConnKnown) => return Err(End::ConnKnown),
        Ok(ConnReply::Did(_)) => return Ok(()),
        Ok(ConnReply::ConnUnknown) => return Ok(()),
        Err(end) => return Err(end),
    }
}

/// Drains and receives in turn, until there is an end.
#[tactic(auto, using(crate::proofs::Running::serves_nothing, crate::proofs::Running::serves_round, crate::proofs::Running::runs_drains, crate::proofs::Running::runs_round))]
fn run<R: Wait, K: Link, C: Clock>(
    rt: &R,
    alloc: Global,
    engine: &Engine,
    pass: &mut Pass,
    conn: u32,
    start: u64,
    link: &mut K,
    clock: &mut C,
) -> End
    requires { (pass.old.lock ≡ engine.now) × (pass.old.has_turn ≡ false) }
    ensures { Runs conn start pass.old pass.new
        (link_view (K.coming link.old) (K.sent link.old) (K.faults link.old))
        (link_view (K.coming link.new) (K.sent link.new) (K.faults link.new))
        (C.tells clock.old) (C.tells clock.new) result }
{
    let mut late = false;
    for _ in rt.forever() {
        match drain_all(rt, alloc, engine, pass, conn, link) {
            Ok(()) => {}
            Err(end) => return end,
        }
        match take_in(rt, alloc, engine, pass, conn, start, &mut late, link, clock) {
            Ok(()) => {}
            Err(end) => return end,
        }
    }
    unreachable!()
}

/// Makes the connection gone.
#[tactic(auto, using(crate::proofs::Running::departs_made, crate::proofs::Running::departs_ends))]
fn depart<R: Wait>(rt: &R, alloc: Global, engine: &Engine, pass: &mut Pass, conn: u32)
    requires { (pass.old.lock ≡ engine.now) × (pass.old.has_turn ≡ false) }
    ensures { Departs conn pass.old pass.new }
{
    let _reply = tell(rt, alloc, engine, pass, Event::Gone(conn));
}

/// Serves a connection over a link, until there is an end, and makes it gone.
///
/// It makes the connection known, and then goes round: it drains the connection's queue and sends each text; it asks the
/// clock, and makes the one timeout where 3,000 milliseconds or more have passed since the start; else it receives. A
/// text or a binary message is made an event, and an idle answer is none. The pass has to be one of the engine, without
/// the turn.
///
/// - `Closed`: the connection was closed with this code, all that was queued before was sent, and the link was closed.
/// - `PeerClosed`: the link answered so.
/// - `LinkFault`: receiving, sending or closing failed, and the link's count of faults rose.
/// - `ConnKnown`: the connection was known. Nothing was received or sent, and it isn't made gone.
/// - `Spent`: a call was answered that the turns are spent; the pass has then seen 2^62 entries.
/// - `NoMemory`: a call or the link was refused memory.
#[tactic(auto, using(crate::proofs::Running::served_refused, crate::proofs::Running::served_session))]
pub fn serve_conn<R: Wait, K: Link, C: Clock>(
    rt: &R,
    alloc: Global,
    engine: &Engine,
    pass: &mut Pass,
    conn: u32,
    link: &mut K,
    clock: &mut C,
) -> End
    requires { (pass.old.lock ≡ engine.now) × (pass.old.has_turn ≡ false) }
    ensures { Served conn pass.old pass.new
        (link_view (K.coming link.old) (K.sent link.old) (K.faults link.old))
        (link_view (K.coming link.new) (K.sent link.new) (K.faults link.new))
        (C.tells clock.old) (C.tells clock.new) result }
{
    match open(rt, alloc, engine, pass, conn) {
        Ok(()) => {}
        Err(end) => return end,
    }
    let start = clock.now_ms();
    let end = run(rt, alloc, engine, pass, conn, start, link, clock);
    depart(rt, alloc, engine, pass, conn);
    end
}
