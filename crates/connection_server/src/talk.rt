//! Single calls of the engine and of a link, whose faults are ends.
ghost use Rattle.std.specs.Prelude.{◌≡◌, false, MatchResult};
ghost use Rattle.outside.specs.declared.link.LinkOut.{LinkOut};
ghost use Rattle.hub.specs.declared.event.Reply.TheVariants as reply;
ghost use Rattle.subs_engine.specs.Calls.{MakesOne};
ghost use Rattle.subs_engine.specs.Events.{Answers};
ghost use Rattle.connection_server.specs.Talks.{link_view};
ghost use Rattle.connection_server.specs.Steps.{close_of};
ghost use Rattle.connection_server.specs.Parts.{CallEnds, IsOfConnection, Receives, SendEnds};

use crate::end::End;
use outside::{Link, LinkIn, Sent};
use std::alloc::Global;
use std::sync::Wait;
use subs_engine::{CallFault, ConnReply, DrainReply, Engine, Event, Pass, Reply};
use wire_model::CloseReason;

/// Makes an event of a connection, which isn't its draining.
#[tactic(auto, using(crate::proofs::Replying::conn_replied))]
pub(crate) fn tell<R: Wait>(
    rt: &R,
    alloc: Global,
    engine: &Engine,
    pass: &mut Pass,
    event: Event,
) -> Result<ConnReply, End>
    requires pass { (pass.old.lock ≡ engine.now) × (pass.old.has_turn ≡ false) }
    requires kind { IsOfConnection event }
    ensures { MatchResult result
        (λ r. Answers event (reply.Conn r) (MakesOne pass.old pass.new))
        (λ e. CallEnds event pass.old pass.new e) }
{
    match engine.call(rt, alloc, pass, event) {
        Ok(Reply::Conn(reply)) => Ok(reply),
        Ok(_) => unreachable!(),
        Err(CallFault::Spent(_)) => Err(End::Spent),
        Err(CallFault::NoMemory(_)) => Err(End::NoMemory),
    }
}

/// Drains a connection once.
#[tactic(auto, using(crate::proofs::Replying::drain_replied))]
pub(crate) fn drain_one<R: Wait>(
    rt: &R,
    alloc: Global,
    engine: &Engine,
    pass: &mut Pass,
    conn: u32,
) -> Result<DrainReply, End>
    requires { (pass.old.lock ≡ engine.now) × (pass.old.has_turn ≡ false) }
    ensures { MatchResult result
        (λ r. Answers (Event.Drain conn) (reply.Drain r) (MakesOne pass.old pass.new))
        (λ e. CallEnds (Event.Drain conn) pass.old pass.new e) }
{
    match engine.call(rt, alloc, pass, Event::Drain(conn)) {
        Ok(Reply::Drain(reply)) => Ok(reply),
        Ok(_) => unreachable!(),
        Err(CallFault::Spent(_)) => Err(End::Spent),
        Err(CallFault::NoMemory(_)) => Err(End::NoMemory),
    }
}

/// Sends a text.
#[tactic(auto, using(crate::proofs::Talking::talks_sent, crate::proofs::Talking::talks_unsent, crate::proofs::Talking::talks_refused))]
pub(crate) fn send<K: Link>(link: &mut K, text: &[u8]) -> Result<(), End>
    ensures { SendEnds (link_view (K.coming link.old) (K.sent link.old) (K.faults link.old))
        (link_view (K.coming link.new) (K.sent link.new) (K.faults link.new)) (LinkOut.Text text.now) result }
{
    match link.send(text) {
        Sent::Done => Ok(()),
        Sent::Failed => Err(End::LinkFault),
        Sent::NoMemory => Err(End::NoMemory),
    }
}

/// Closes the link for a reason.
#[tactic(auto, using(crate::proofs::Talking::talks_sent, crate::proofs::Talking::talks_unsent, crate::proofs::Talking::talks_refused))]
pub(crate) fn close<K: Link>(link: &mut K, reason: &CloseReason) -> Result<(), End>
    ensures { SendEnds (link_view (K.coming link.old) (K.sent link.old) (K.faults link.old))
        (link_view (K.coming link.new) (K.sent link.new) (K.faults link.new)) (close_of reason.now) result }
{
    match link.close(reason.code(), reason.text()) {
        Sent::Done => Ok(()),
        Sent::Failed => Err(End::LinkFault),
        Sent::NoMemory => Err(End::NoMemory),
    }
}

/// Receives over the link.
#[tactic(auto, using(crate::proofs::Talking::receives_by))]
pub(crate) fn receive<K: Link>(link: &mut K) -> LinkIn
    ensures { Receives (link_view (K.coming link.old) (K.sent link.old) (K.faults link.old))
        (link_view (K.coming link.new) (K.sent link.new) (K.faults link.new)) result }
{
    link.recv()
}
