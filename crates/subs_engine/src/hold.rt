//! A gate that shows that batches are evaluated beside each other.
ghost use Rattle.std.specs.Prelude.{◌≡◌, ◌+◌, ◌≤◌, IfOk};

use crate::free::FreeGate;
use crate::gate::Gate;
use hub::{Job, OutcomeList};
use scalar_val::{NoMemory, Steps};
use std::alloc::Global;
use std::sync::Wait;
use std::sync::atomic::{AtomicU64, Ordering};
use std::sync::ledger::Ledger;
use std::thread;

// What ended the wait for job 2. It is written once.
const NOTHING: u64 = 0;

const CALLED: u64 = 1;

const LIMIT: u64 = 2;

/// What the workers of a `HoldGate` share.
#[derive(Drop)]
pub struct Hold {
    end: AtomicU64,
    // Turns that were taken so far.
    turns: AtomicU64,
}

impl Hold {
    /// No job came yet.
    pub fn new() -> Hold {
        Hold {
            end: AtomicU64::new(NOTHING),
            turns: AtomicU64::new(0),
        }
    }
}

/// Why a `HoldGate` stops: what came first.
#[derive(Clone, Copy, Debug, PartialEq, Eq)]
pub enum HoldStop {
    /// Job 2 came.
    Called,
    /// The turns are used up.
    Limit,
}

/// Evaluates as `FreeGate` does, but first holds job 1 until job 2 comes. So where jobs are evaluated one after the
/// other, it comes to its limit of turns, of which each look for job 2 is one, and each question whether to stop.
#[derive(Clone, Copy)]
pub struct HoldGate<'a> {
    hold: &'a Hold,
    limit: u64,
}

impl<'a> HoldGate<'a> {
    /// A gate of the workers that share this.
    pub fn new(hold: &'a Hold, limit: u64) -> HoldGate<'a> {
        HoldGate { hold, limit }
    }

    fn set_end(&self, end: u64) {
        let _before = self
            .hold
            .end
            .compare_exchange(NOTHING, end, Ordering::SeqCst, Ordering::SeqCst);
    }

    // Takes a turn, and says what has ended the wait, if anything.
    fn look(&self) -> Option<HoldStop> {
        if self.hold.turns.fetch_add(1, Ordering::SeqCst) >= self.limit {
            self.set_end(LIMIT);
        }
        match self.hold.end.load(Ordering::SeqCst) {
            NOTHING => None,
            CALLED => Some(HoldStop::Called),
            _ => Some(HoldStop::Limit),
        }
    }

    fn await_second<R: Wait>(&self, rt: &R) {
        for _ in rt.forever() {
            if self.look().is_some() {
                return;
            }
            thread::yield_now();
        }
        unreachable!()
    }
}

impl<'a> Gate for HoldGate<'a> {
    type Stop = HoldStop;

    fn batch<R: Wait, L: Ledger>(
        &self,
        rt: &R,
        alloc: Global,
        job: &Job,
        steps: &mut Steps<L>,
    ) -> Result<OutcomeList, NoMemory> {
        if job.number == 2 {
            self.set_end(CALLED);
        }
        if job.number == 1 {
            self.await_second(rt);
        }
        FreeGate.batch(rt, alloc, job, steps)
    }

    fn stop(&self) -> Option<HoldStop> {
        self.look()
    }
}
