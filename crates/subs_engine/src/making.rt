//! Events that a hub makes.
ghost use Rattle.std.specs.Prelude.{◌≡◌, ◌^◌, ◌<◌, [], true, IfOk, IsErr, OnErr};
ghost use Rattle.hub_model.specs.Stands.{Does};
ghost use Rattle.hub_model.specs.Replies.{CommitAnswers};
ghost use Rattle.machine.specs.State.{Report, Reported};
ghost use Rattle.subs_engine.specs.Events.{Holds, IsText, answer_to, event_of, may_lack};

use data_model::Tx;
use hub::{CommitReply, Counts, Event, Hub, Reply};
use scalar_val::{NoMemory, Steps};
use std::alloc::Global;
use std::marker::Brand;
use std::sync::ledger::{Blank, Ledger};

// A transaction, whose steps nobody counts.
fn commit<L: Ledger>(
    alloc: Global,
    hub: &mut Hub,
    tx: &Tx,
    blank: Blank,
) -> Result<CommitReply, NoMemory>
    requires room { hub.old.events < 2 ^ 62 }
    requires name { blank.name ≡ L.name }
    requires parts { blank.parts ≡ L.parts }
    requires some { 0 < blank.parts }
    ensures reply { IfOk result (λ reply. CommitAnswers hub.old hub.new tx.now reply) }
    ensures err { OnErr result (hub.new ≡ hub.old) }
{
    let mut steps = Steps::<L>::new(blank);
    hub.commit(alloc, tx, &mut steps)
}

// What there is, which counts as an event.
#[tactic(auto, using(crate::proofs::Made::reports))]
fn report(hub: &mut Hub) -> Counts
    requires { hub.old.events < 2 ^ 62 }
    ensures { Does hub.old hub.new Report (Reported result) [] [] }
{
    let counts = hub.report();
    hub.skip();
    counts
}

/// Lets the hub make an event that isn't a text. For want of memory, which only some events may find, it makes none.
#[tactic(auto, using(crate::proofs::Made::conn_does, crate::proofs::Made::commit_does, crate::proofs::Made::abandon_does, crate::proofs::Made::drain_does))]
pub(crate) fn make(alloc: Global, hub: &mut Hub, event: &Event) -> Result<Reply, NoMemory>
    requires room { hub.old.events < 2 ^ 62 }
    requires other { IsText event.now → ⊥ }
    ensures ok { IfOk result (λ reply. Holds (answer_to event.now reply)
        (λ a. Does hub.old hub.new (event_of event.now) a.reply a.queued a.closed)) }
    ensures lacks { IsErr result → may_lack event.now ≡ true }
    ensures err { OnErr result (hub.new ≡ hub.old) }
{
    match event {
        Event::Commit(tx) => Ok(Reply::Commit(commit::<Brand>(alloc, hub, tx, Blank::new(1))?)),
        Event::Connect(conn) => Ok(Reply::Conn(hub.connect(alloc, *conn)?)),
        Event::Text(_, _) => unreachable!(),
        Event::Binary(conn) => Ok(Reply::Conn(hub.binary(alloc, *conn))),
        Event::Timeout(conn) => Ok(Reply::Conn(hub.timeout(alloc, *conn))),
        Event::Gone(conn) => Ok(Reply::Conn(hub.gone(alloc, *conn))),
        Event::Tick => Ok(Reply::Tick(hub.tick())),
        Event::Abandon(number) => Ok(Reply::Abandon(hub.abandon(*number))),
        Event::Drain(conn) => Ok(Reply::Drain(hub.drain_one(*conn))),
        Event::Report => Ok(Reply::Report(report(hub))),
    }
}
