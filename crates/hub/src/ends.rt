//! The end of subscriptions and of connections.
ghost use Rattle.std.specs.Prelude.{◌≡◌, ◌^◌, ◌<◌, if◌then◌else◌};
ghost use Rattle.machine.specs.State.{Event, Gone, Timeout};
ghost use Rattle.cohort_map.specs.Entries.{has, left};
ghost use Rattle.subscription_table.specs.Kept.{without};
ghost use Rattle.hub_model.specs.Kept.{Kept};
ghost use Rattle.hub_model.specs.Steps.{closed, counted, ends_all};
ghost use Rattle.hub_model.specs.Replies.{ConnAnswers};
ghost use Rattle.hub.specs.Parts.{ClosesBy, is_fresh, with_entries};

use crate::center::{Hub, nothing};
use cohort_map::CohortMap;
use hub_model::{ConnReply, Effect};
use machine::Phase;
use scalar_val::List;
use std::alloc::Global;
use subscription_table::SubscriptionTable;
use wire_model::CloseReason;

/// A subscription ends. What is held of it stays while it is a member of an open job.
pub(crate) fn end_one(cohorts: &mut CohortMap, held: &mut SubscriptionTable, number: u64)
    ensures entries { cohorts.new.entries ≡ left number cohorts.old.entries }
    ensures held { held.new ≡ (if has number cohorts.new.entries then held.old else without number held.old) }
    ensures ready { cohorts.new.ready ≡ cohorts.old.ready }
{
    cohorts.leave(number);
    if !cohorts.has(number) {
        held.remove(number);
    }
}

/// Subscriptions end, one after the other.
fn end_all(cohorts: &mut CohortMap, held: &mut SubscriptionTable, numbers: &[u64])
    ensures ends { (k : Kept) → ends_all numbers.now (with_entries cohorts.old.entries held.old k)
        ≡ with_entries cohorts.new.entries held.new k }
    ensures ready { cohorts.new.ready ≡ cohorts.old.ready }
{
    for number in numbers {
        end_one(cohorts, held, *number);
    }
}

/// Whether nothing was acknowledged on a connection, which isn't closed.
fn is_fresh(phase: &Phase) -> bool
    ensures { result ≡ is_fresh phase.now }
{
    matches!(phase, Phase::Fresh)
}

impl Hub {
    /// Closes a connection, and ends its subscriptions. It needs an event that does so. It takes no memory.
    pub(crate) fn close(&mut self, alloc: Global, conn: u32, reason: CloseReason) -> ConnReply
        requires room { self.old.events < 2 ^ 62 }
        requires event { (e : Event) × ClosesBy self.old conn reason e }
        ensures new { self.new ≡ counted (closed conn reason self.old) }
        ensures reply { (e : Event) → ClosesBy self.old conn reason e → ConnAnswers self.old self.new conn e result }
    {
        let live = self.connections.live(conn);
        end_all(&mut self.cohorts, &mut self.held, live);
        self.connections.close(conn, reason.copy());
        self.events += 1;
        ConnReply::Did(Effect {
            queued: List::new(alloc),
            closed: Some(reason),
        })
    }

    /// A connection's peer is gone: its subscriptions end, what is queued is dropped, and it is no longer known.
    /// `ConnUnknown` exactly where it wasn't before. It takes no memory.
    pub fn gone(&mut self, alloc: Global, conn: u32) -> ConnReply
        requires { self.old.events < 2 ^ 62 }
        ensures { ConnAnswers self.old self.new conn (Gone conn) result }
    {
        if !self.knows(conn) {
            self.events += 1;
            return ConnReply::ConnUnknown;
        }
        let live = self.connections.live(conn);
        end_all(&mut self.cohorts, &mut self.held, live);
        self.connections.remove(conn);
        self.events += 1;
        nothing(alloc)
    }

    /// No `connection_init` came in time: a connection that is neither acknowledged nor closed is closed. `ConnUnknown`
    /// exactly where it isn't known. It takes no memory.
    pub fn timeout(&mut self, alloc: Global, conn: u32) -> ConnReply
        requires { self.old.events < 2 ^ 62 }
        ensures { ConnAnswers self.old self.new conn (Timeout conn) result }
    {
        let Some(phase) = self.connections.phase(conn) else {
            self.events += 1;
            return ConnReply::ConnUnknown;
        };
        if is_fresh(phase) {
            return self.close(alloc, conn, CloseReason::InitTimeout);
        }
        self.events += 1;
        nothing(alloc)
    }
}
