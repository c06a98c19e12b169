//! Draining a connection.
ghost use Rattle.std.specs.Prelude.{◌≡◌, false};
ghost use Rattle.connection_server.specs.Talks.{link_view};
ghost use Rattle.connection_server.specs.Parts.{DrainsAll, DrainsOnce};

use crate::end::End;
use crate::talk::{close, drain_one, send};
use outside::Link;
use std::alloc::Global;
use std::sync::Wait;
use subs_engine::{DrainReply, Engine, Pass};

/// Drains once, and sends the text that comes. It tells whether there was none. At the end of a closed connection's
/// queue it closes the link.
#[tactic(auto, using(crate::proofs::Draining::drains_sent, crate::proofs::Draining::drains_empty, crate::proofs::Draining::drains_unknown, crate::proofs::Draining::stops_text, crate::proofs::Draining::stops_close, crate::proofs::Draining::stops_closed, crate::proofs::Draining::stops_drain))]
fn drain_step<R: Wait, K: Link>(
    rt: &R,
    alloc: Global,
    engine: &Engine,
    pass: &mut Pass,
    conn: u32,
    link: &mut K,
) -> Result<bool, End>
    requires { (pass.old.lock ≡ engine.now) × (pass.old.has_turn ≡ false) }
    ensures { DrainsOnce conn pass.old pass.new
        (link_view (K.coming link.old) (K.sent link.old) (K.faults link.old))
        (link_view (K.coming link.new) (K.sent link.new) (K.faults link.new)) result }
{
    match drain_one(rt, alloc, engine, pass, conn) {
        Ok(DrainReply::Sent(text)) => {
            match send(link, text.as_bytes()) {
                Ok(()) => return Ok(false),
                Err(end) => return Err(end),
            }
        }
        Ok(DrainReply::Empty) => return Ok(true),
        Ok(DrainReply::ConnUnknown) => return Ok(true),
        Ok(DrainReply::Done(reason)) => {
            match close(link, &reason) {
                Ok(()) => return Err(End::Closed(reason.code())),
                Err(end) => return Err(end),
            }
        }
        Err(end) => return Err(end),
    }
}

/// Drains until there is no text, and sends each.
#[tactic(auto, using(crate::proofs::Draining::drains_then, crate::proofs::Draining::drains_nothing, crate::proofs::Draining::drains_end))]
pub(crate) fn drain_all<R: Wait, K: Link>(
    rt: &R,
    alloc: Global,
    engine: &Engine,
    pass: &mut Pass,
    conn: u32,
    link: &mut K,
) -> Result<(), End>
    requires { (pass.old.lock ≡ engine.now) × (pass.old.has_turn ≡ false) }
    ensures { DrainsAll conn pass.old pass.new
        (link_view (K.coming link.old) (K.sent link.old) (K.faults link.old))
        (link_view (K.coming link.new) (K.sent link.new) (K.faults link.new)) result }
{
    for _ in rt.forever() {
        match drain_step(rt, alloc, engine, pass, conn, link) {
            Ok(false) => {}
            Ok(true) => return Ok(()),
            Err(end) => return Err(end),
        }
    }
    unreachable!()
}
