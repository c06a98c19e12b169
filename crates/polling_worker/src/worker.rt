//! The worker.
ghost use Rattle.std.specs.Prelude.{◌≡◌, false};
ghost use Rattle.polling_worker.specs.Works.{Works};

use crate::poll::poll_all;
use crate::tick::begin;
use outside::Clock;
use scalar_val::Steps;
use std::alloc::Global;
use std::sync::Wait;
use std::sync::ledger::Ledger;
use subs_engine::{Engine, Gate, Pass, TakeFault};

/// How long a worker rests between two rounds, in milliseconds.
const REST: u64 = 10;

/// Polls, round after round, until the gate says stop, and gives its stop.
///
/// In each round it first asks the clock, where `ticks` is true, and makes a tick where it made none yet or
/// `refetch_ms` milliseconds or more have passed since the time of its last one. Then it polls until nobody is due,
/// asks the gate, and rests. The pass has to be one of the engine, without the turn. `steps` counts the rows that are
/// read: no more than those of each table of a job's plan, for each place where the plan has it, and each job that it
/// took.
///
/// - `Spent`: a call was answered that the turns are spent; the pass has then seen 2^62 entries.
/// - `NoMemory`: a poll was refused memory.
#[tactic(auto, using(crate::proofs::Working::rounds_nothing, crate::proofs::Working::rounds_more, crate::proofs::Working::works_stop, crate::proofs::Working::works_begin_fault, crate::proofs::Working::works_poll_fault))]
pub fn poll_worker<R: Wait, C: Clock, G: Gate, L: Ledger>(
    rt: &R,
    alloc: Global,
    engine: &Engine,
    pass: &mut Pass,
    ticks: bool,
    refetch_ms: u32,
    clock: &mut C,
    gate: &G,
    steps: &mut Steps<L>,
) -> Result<G::Stop, TakeFault>
    requires { (pass.old.lock ≡ engine.now) × (pass.old.has_turn ≡ false) }
    ensures { Works ticks refetch_ms pass.old pass.new (C.tells clock.old) (C.tells clock.new) steps.old steps.new
        result }
{
    let mut last = None;
    for _ in rt.forever() {
        match begin(rt, alloc, engine, pass, ticks, refetch_ms, &mut last, clock) {
            Ok(()) => {}
            Err(fault) => return Err(fault),
        }
        match poll_all(rt, alloc, engine, pass, gate, steps) {
            Ok(()) => {}
            Err(fault) => return Err(fault),
        }
        match gate.stop() {
            Some(stop) => return Ok(stop),
            None => {}
        }
        clock.rest(rt, REST);
    }
    unreachable!()
}
