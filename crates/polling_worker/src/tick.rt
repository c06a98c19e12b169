//! Ticks, by the clock.
ghost use Rattle.std.specs.Prelude.{◌≡◌, false};
ghost use Rattle.polling_worker.specs.Ticks.{counts_at};
ghost use Rattle.polling_worker.specs.Parts.{BeginsAs, TicksOnce};

use outside::Clock;
use std::alloc::Global;
use std::sync::Wait;
use subs_engine::{CallFault, Engine, Event, Pass, TakeFault};

/// Whether a time counts: it is the first one, or is at least so many milliseconds above the last one that counted.
fn counts(refetch_ms: u32, last: Option<u64>, now: u64) -> bool
    ensures { result ≡ counts_at refetch_ms last now }
{
    match last {
        None => true,
        Some(last) => now >= last && now - last >= u64::from(refetch_ms),
    }
}

/// Makes a tick.
#[tactic(auto, using(crate::proofs::Beginning::ticks_now))]
fn tick<R: Wait>(rt: &R, alloc: Global, engine: &Engine, pass: &mut Pass) -> Result<(), TakeFault>
    requires { (pass.old.lock ≡ engine.now) × (pass.old.has_turn ≡ false) }
    ensures { TicksOnce pass.old pass.new result }
{
    match engine.call(rt, alloc, pass, Event::Tick) {
        Ok(_) => return Ok(()),
        Err(CallFault::Spent(_)) => return Err(TakeFault::Spent),
        Err(CallFault::NoMemory(_)) => unreachable!(),
    }
}

/// Begins a round: where the worker makes ticks it asks the clock, and makes one where that time counts.
#[tactic(auto, using(crate::proofs::Beginning::begins_silent, crate::proofs::Beginning::begins_early, crate::proofs::Beginning::begins_tick, crate::proofs::Beginning::begins_fault))]
pub(crate) fn begin<R: Wait, C: Clock>(
    rt: &R,
    alloc: Global,
    engine: &Engine,
    pass: &mut Pass,
    ticks: bool,
    refetch_ms: u32,
    last: &mut Option<u64>,
    clock: &mut C,
) -> Result<(), TakeFault>
    requires { (pass.old.lock ≡ engine.now) × (pass.old.has_turn ≡ false) }
    ensures { BeginsAs ticks refetch_ms pass.old pass.new (C.tells clock.old) (C.tells clock.new) last.old last.new
        result }
{
    if !ticks {
        return Ok(());
    }
    let now = clock.now_ms();
    if !counts(refetch_ms, *last, now) {
        return Ok(());
    }
    match tick(rt, alloc, engine, pass) {
        Ok(()) => {
            *last = Some(now);
            return Ok(());
        }
        Err(fault) => return Err(fault),
    }
}
