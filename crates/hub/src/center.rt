ghost use Rattle.std.specs.Prelude.{◌≡◌, ◌^◌, ◌<◌, ◌≤◌, ◌+◌, [], List, IfOk, OnErr};
ghost use Rattle.machine.specs.State.{Event, Connect, Report, Reported, Skip, Skipped, Tick, Ticked, silent};
ghost use Rattle.machine.specs.Run.{happens, run};
ghost use Rattle.tx_apply.specs.Cost.{cost};
ghost use Rattle.cohort_map.specs.Entries.{due_count};
ghost use Rattle.hub_model.specs.Stands.{StandsFor, Does};
ghost use Rattle.hub_model.specs.Steps.{knows};
ghost use Rattle.hub_model.specs.Replies.{AbandonAnswers, CommitAnswers, ConnAnswers, DrainAnswers};
ghost use Rattle.hub.specs.Parts.{did_nothing, emptied};

use crate::jobs::{close_job, is_open};
use cohort_map::CohortMap;
use connection_table::ConnectionTable;
use hub_model::{CommitReply, ConnReply, DrainReply, Effect, OpenJob};
use machine::{Counts, Phase};
use role_schema::Meta;
use row_store::Snapshot;
use scalar_val::{List, NoMemory, Steps};
use std::alloc::Global;
use std::marker::Model;
use std::sync::ledger::Ledger;
use subscription_table::SubscriptionTable;
use tx_apply::{ApplyFault, Tx, apply};

/// The runtime's state. Contracts see it as what it keeps of the machine's state.
#[derive(Drop)]
pub struct Hub {
    pub(crate) meta: Meta,
    pub(crate) snapshot: Snapshot,
    pub(crate) version: u64,
    pub(crate) connections: ConnectionTable,
    pub(crate) held: SubscriptionTable,
    pub(crate) cohorts: CohortMap,
    pub(crate) jobs: Vec<OpenJob>,
    pub(crate) subscribed: u64,
    pub(crate) jobs_made: u64,
    pub(crate) events: u64,
}

impl Model for Hub {
    ghost use Rattle.hub_model.specs.Kept.{Kept};

    ghost Value = { Kept };

    ghost use Rattle.role_model.specs.contracts.metadata.Metadata as metadata_row;
    ghost use Rattle.subscription_table.specs.contracts.held.Held as held_row;
    ghost use Rattle.std.specs.Coded.{codes};

    ghost coded = { Prim.hlevel (codes, metadata_row.the_row.coded, held_row.the_row.coded) };

    ghost use Rattle.hub.specs.Seen.{seen, IsSound};

    ghost view = { seen };

    ghost invariant = { IsSound };
}

/// What an event did that queued nothing and closed nothing.
pub(crate) fn nothing(alloc: Global) -> ConnReply
    ensures { result ≡ did_nothing }
{
    ConnReply::Did(Effect {
        queued: List::new(alloc),
        closed: None,
    })
}

/// The reply to the draining of an empty queue.
fn emptied(phase: &Phase) -> DrainReply
    ensures { result ≡ emptied phase.now }
{
    match phase {
        Phase::Fresh => DrainReply::Empty,
        Phase::Acknowledged { .. } => DrainReply::Empty,
        Phase::Closed { reason } => DrainReply::Done(reason.copy()),
    }
}

impl Hub {
    /// A hub to which nothing has happened.
    pub fn new(alloc: Global, meta: Meta) -> Result<Hub, NoMemory>
        ensures meta { IfOk result (λ hub. hub.meta ≡ meta) }
        ensures stands { IfOk result (λ hub. StandsFor hub []) }
        ensures events { IfOk result (λ hub. hub.events ≡ 0) }
    {
        let snapshot = Snapshot::new(alloc, meta.catalog())?;
        Ok(Hub {
            meta,
            snapshot,
            version: 0,
            connections: ConnectionTable::new(alloc),
            held: SubscriptionTable::new(alloc),
            cohorts: CohortMap::new(alloc),
            jobs: Vec::new(alloc),
            subscribed: 0,
            jobs_made: 0,
            events: 0,
        })
    }

    /// The metadata, which no event changes.
    pub fn meta(&self) -> &Meta
        ensures { result.now ≡ self.now.meta }
    {
        &self.meta
    }

    /// How many events there were.
    pub fn events(&self) -> u64
        ensures { result ≡ self.now.events }
    {
        self.events
    }

    /// Whether a connection is known: it was opened, and isn't gone.
    pub fn knows(&self, conn: u32) -> bool
        ensures { result ≡ knows conn self.now }
    {
        self.connections.knows(conn)
    }

    /// A connection opens. `ConnKnown` exactly where it is known. For want of memory nothing has changed.
    pub fn connect(&mut self, alloc: Global, conn: u32) -> Result<ConnReply, NoMemory>
        requires { self.old.events < 2 ^ 62 }
        ensures reply { IfOk result (λ reply. ConnAnswers self.old self.new conn (Connect conn) reply) }
        ensures err { OnErr result (self.new ≡ self.old) }
    {
        if self.knows(conn) {
            self.events += 1;
            return Ok(ConnReply::ConnKnown);
        }
        self.connections.insert(alloc, conn)?;
        self.events += 1;
        Ok(nothing(alloc))
    }

    /// A transaction: all of its changes, or none. A refused one changes nothing. It counts at most a step for each row
    /// of a change's table, and one, for each change.
    pub fn commit<L: Ledger>(
        &mut self,
        alloc: Global,
        tx: &Tx,
        steps: &mut Steps<L>,
    ) -> Result<CommitReply, NoMemory>
        requires { self.old.events < 2 ^ 62 }
        ensures reply { IfOk result (λ reply. CommitAnswers self.old self.new tx.now reply) }
        ensures err { OnErr result (self.new ≡ self.old) }
        ensures steps { steps.new ≤ steps.old + cost self.old.meta.catalog self.old.tables tx.now }
    {
        match apply(alloc, self.meta.catalog(), &self.snapshot, tx, steps) {
            Ok(after) => {
                self.snapshot = after;
                self.version += 1;
                self.events += 1;
                Ok(CommitReply::Committed(self.version))
            }
            Err(ApplyFault::Refused(fault)) => {
                self.events += 1;
                Ok(CommitReply::Refused(fault))
            }
            Err(ApplyFault::NoMemory) => Err(NoMemory),
        }
    }

    /// Makes due each live subscription whose cohort has no member, live or ended, in an open job, and no others. It
    /// gives their number, and takes no memory.
    pub fn tick(&mut self) -> u64
        requires { self.old.events < 2 ^ 62 }
        ensures does { Does self.old self.new Tick (Ticked result) [] [] }
        ensures due { result ≡ due_count self.new.entries }
    {
        self.events += 1;
        self.cohorts.tick()
    }

    /// How many subscriptions are due. It is no event.
    pub fn due(&self) -> u64
        ensures { result ≡ due_count self.now.entries }
    {
        self.cohorts.due()
    }

    /// An open job ends without a publication, and its live members become due. It is false exactly where the number
    /// isn't that of an open job. It takes no memory.
    pub fn abandon(&mut self, number: u64) -> bool
        requires { self.old.events < 2 ^ 62 }
        ensures { AbandonAnswers self.old self.new number result }
    {
        self.events += 1;
        if !is_open(&self.jobs, number) {
            return false;
        }
        close_job(
            &mut self.cohorts,
            &mut self.held,
            &mut self.jobs,
            number,
            true,
        );
        true
    }

    /// The first text leaves a connection's queue. `Empty` and `Done` where there is none: the connection is open, or
    /// was closed with this reason. `ConnUnknown` exactly where it isn't known. It takes no memory.
    pub fn drain_one(&mut self, conn: u32) -> DrainReply
        requires { self.old.events < 2 ^ 62 }
        ensures { DrainAnswers self.old self.new conn result }
    {
        self.events += 1;
        if let Some(text) = self.connections.pop(conn) {
            return DrainReply::Sent(text);
        }
        let Some(phase) = self.connections.phase(conn) else {
            return DrainReply::ConnUnknown;
        };
        emptied(phase)
    }

    /// What there is. It takes no memory and is no event here; the machine's `report` changes nothing.
    pub fn report(&self) -> Counts
        ensures { (h : List Event) → StandsFor self.now h → happens self.now.meta (run self.now.meta h) Report
            ≡ silent (run self.now.meta h) (Reported result) }
    {
        Counts {
            connections: self.connections.len(),
            live: self.cohorts.live_count(),
            due: self.cohorts.due(),
            jobs: self.jobs.len() as u64,
            version: self.version,
        }
    }

    /// An event that changes nothing but their count.
    pub fn skip(&mut self)
        requires { self.old.events < 2 ^ 62 }
        ensures { Does self.old self.new Skip Skipped [] [] }
    {
        self.events += 1;
    }
}
