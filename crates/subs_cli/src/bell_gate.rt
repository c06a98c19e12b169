//! The gate of the server: it evaluates at once, and rings once the answers may be published.
ghost use Rattle.std.specs.Prelude.{◌≡◌, ◌+◌, ◌≤◌, IfOk};

use link_ws::Bell;
use scalar_val::{NoMemory, Steps};
use std::alloc::Global;
use std::sync::Wait;
use std::sync::atomic::{AtomicU64, Ordering};
use std::sync::ledger::Ledger;
use subs_engine::{FreeGate, Gate, Job, Never, OutcomeList};

/// So many rings follow an evaluation. A worker asks whether to stop once it has published, so one would do if there
/// were one worker; but another's question may come between the evaluation and the publication, and take a ring.
const RINGS: u64 = 2;

/// Evaluates as `FreeGate` does, never stops, and rings where a worker asks it whether to stop after an evaluation. So
/// whoever hears the bell may look for what was published. No clause says that it rings.
#[derive(Clone, Copy)]
pub struct BellGate {
    bell: &'static Bell,
    // The rings that are still to come.
    rings: &'static AtomicU64,
}

impl BellGate {
    /// A gate that rings this bell. What its copies share is never freed.
    pub fn new(alloc: Global, bell: &'static Bell) -> Result<BellGate, NoMemory> {
        let rings = Box::leak(Box::new(alloc, AtomicU64::new(0))?);
        Ok(BellGate { bell, rings })
    }
}

impl Gate for BellGate {
    type Stop = Never;

    fn batch<R: Wait, L: Ledger>(
        &self,
        rt: &R,
        alloc: Global,
        job: &Job,
        steps: &mut Steps<L>,
    ) -> Result<OutcomeList, NoMemory> {
        let evaluated = FreeGate.batch(rt, alloc, job, steps);
        self.rings.store(RINGS, Ordering::SeqCst);
        evaluated
    }

    fn stop(&self) -> Option<Never> {
        let rings = self.rings.load(Ordering::SeqCst);
        if rings > 0 {
            // Where another worker was faster, it has raised or lowered the number itself.
            let _found = self
                .rings
                .compare_exchange(rings, rings - 1, Ordering::SeqCst, Ordering::SeqCst);
            self.bell.ring();
        }
        None
    }
}
