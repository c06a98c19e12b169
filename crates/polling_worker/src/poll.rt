//! Polling until nobody is due.
ghost use Rattle.std.specs.Prelude.{◌≡◌, false};
ghost use Rattle.polling_worker.specs.Parts.{PollsAll};

use scalar_val::Steps;
use std::alloc::Global;
use std::sync::Wait;
use std::sync::ledger::Ledger;
use subs_engine::{Engine, Gate, Pass, Polled, TakeFault};

/// Polls until nobody is due.
#[tactic(auto, using(crate::proofs::Polling::polls_nothing, crate::proofs::Polling::polls_published, crate::proofs::Polling::polls_not_open, crate::proofs::Polling::polls_last, crate::proofs::Polling::polls_fault))]
pub(crate) fn poll_all<R: Wait, G: Gate, L: Ledger>(
    rt: &R,
    alloc: Global,
    engine: &Engine,
    pass: &mut Pass,
    gate: &G,
    steps: &mut Steps<L>,
) -> Result<(), TakeFault>
    requires { (pass.old.lock ≡ engine.now) × (pass.old.has_turn ≡ false) }
    ensures { PollsAll pass.old pass.new steps.old steps.new result }
{
    for _ in rt.forever() {
        match engine.poll_once(rt, alloc, pass, gate, steps) {
            Ok(Polled::Nothing) => return Ok(()),
            Ok(Polled::Published(_)) => {}
            Ok(Polled::NotOpen(_)) => {}
            Err(fault) => return Err(fault),
        }
    }
    unreachable!()
}
