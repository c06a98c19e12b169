ghost use Rattle.std.specs.Prelude.{◌≡◌, ◌<◌, false, IfOk};

use crate::calls::{counts, is_done, new_engine, reply_to, subscribe};
use scalar_val::Steps;
use std::alloc::{AllocError, Global};
use std::marker::Brand;
use std::sync::Wait;
use std::sync::ledger::{Blank, Ledger};
use std::test::Fail;
use std::thread;
use std::thread::{Promise, Threads};
use subs_engine::{Counts, Engine, Event, Gate, Hold, HoldGate, HoldStop, Pass};

// Another query than the first one, so that its subscription comes with another job.
const SUBSCRIBE_IDS: &str =
    r#"{"type":"subscribe","id":"b","payload":{"query":"subscription { user { id } }"}}"#;

// So many that a thread comes to its part of the work before.
const LIMIT: u64 = 10_000_000;

// A thread gives back a pass of this engine that holds no turn.
#[derive(Clone, Copy)]
struct OfEngine<'a>(&'a Engine);

impl<'a> Promise<Pass> for OfEngine<'a> {
    ghost kept_by = { λ of pass. (pass.lock ≡ of.0.now) × (pass.has_turn ≡ false) };
}

// Opens a hundred connections.
fn connect<R: Wait>(rt: &R, alloc: Global, engine: &Engine, mut pass: Pass, first: u32) -> Pass
    requires { (pass.lock ≡ engine.now) × (pass.has_turn ≡ false) }
    ensures { (result.lock ≡ engine.now) × (result.has_turn ≡ false) }
{
    for number in 0..100 {
        let conn = Event::Connect(first.wrapping_add(number));
        let _reply = engine.call(rt, alloc, &mut pass, conn);
    }
    pass
}

fn poll_with<R: Wait, L: Ledger>(
    rt: &R,
    alloc: Global,
    engine: &Engine,
    mut pass: Pass,
    hold: &Hold,
    blank: Blank,
) -> Pass
    requires pass { (pass.lock ≡ engine.now) × (pass.has_turn ≡ false) }
    requires name { blank.name ≡ L.name }
    requires parts { blank.parts ≡ L.parts }
    requires some { 0 < blank.parts }
    ensures { (result.lock ≡ engine.now) × (result.has_turn ≡ false) }
{
    let mut steps = Steps::<L>::new(blank);
    let gate = HoldGate::new(hold, LIMIT);
    let _polled = engine.poll_once(rt, alloc, &mut pass, &gate, &mut steps);
    pass
}

fn poll_by<R: Wait>(rt: &R, alloc: Global, engine: &Engine, pass: Pass, hold: &Hold) -> Pass
    requires { (pass.lock ≡ engine.now) × (pass.has_turn ≡ false) }
    ensures { (result.lock ≡ engine.now) × (result.has_turn ≡ false) }
{
    poll_with::<R, Brand>(rt, alloc, engine, pass, hold, Blank::new(1))
}

fn connect_by_two<R: Threads + Wait + Sync>(
    rt: &R,
    alloc: Global,
    engine: &Engine,
    first: Pass,
    second: Pass,
) -> Result<Pass, AllocError>
    requires first { (first.lock ≡ engine.now) × (first.has_turn ≡ false) }
    requires second { (second.lock ≡ engine.now) × (second.has_turn ≡ false) }
    ensures { IfOk result (λ pass. (pass.lock ≡ engine.now) × (pass.has_turn ≡ false)) }
{
    thread::scope(
        thread::scope_env(),
        rt,
        |scope| -> Result<Pass, AllocError>
            requires first { (first.lock ≡ engine.now) × (first.has_turn ≡ false) }
            requires second { (second.lock ≡ engine.now) × (second.has_turn ≡ false) }
            ensures { IfOk result (λ pass. (pass.lock ≡ engine.entry.now) × (pass.has_turn ≡ false)) }
        {
            let first = scope.spawn_with(
                OfEngine(engine),
                move || connect(rt, alloc, engine, first, 0),
            )?;
            let second = scope.spawn_with(
                OfEngine(engine),
                move || connect(rt, alloc, engine, second, 100),
            )?;
            let mut pass = first.join(rt);
            engine.join(&mut pass, second.join(rt));
            Ok(pass)
        },
    )
}

fn poll_by_two<R: Threads + Wait + Sync>(
    rt: &R,
    alloc: Global,
    engine: &Engine,
    first: Pass,
    second: Pass,
    hold: &Hold,
) -> Result<Pass, AllocError>
    requires first { (first.lock ≡ engine.now) × (first.has_turn ≡ false) }
    requires second { (second.lock ≡ engine.now) × (second.has_turn ≡ false) }
    ensures { IfOk result (λ pass. (pass.lock ≡ engine.now) × (pass.has_turn ≡ false)) }
{
    thread::scope(
        thread::scope_env(),
        rt,
        |scope| -> Result<Pass, AllocError>
            requires first { (first.lock ≡ engine.now) × (first.has_turn ≡ false) }
            requires second { (second.lock ≡ engine.now) × (second.has_turn ≡ false) }
            ensures { IfOk result (λ pass. (pass.lock ≡ engine.entry.now) × (pass.has_turn ≡ false)) }
        {
            let first = scope.spawn_with(
                OfEngine(engine),
                move || poll_by(rt, alloc, engine, first, hold),
            )?;
            let second = scope.spawn_with(
                OfEngine(engine),
                move || poll_by(rt, alloc, engine, second, hold),
            )?;
            let mut pass = first.join(rt);
            engine.join(&mut pass, second.join(rt));
            Ok(pass)
        },
    )
}

#[test]
fn two_threads_open_connections_of_their_own(rt: HostRuntime) -> Result<(), Fail> {
    let (engine, mut first) = new_engine(rt.alloc())?;
    let second = engine.split(&mut first)?;
    let mut pass = connect_by_two(&rt, rt.alloc(), &engine, first, second)?;
    let counts = counts(&rt, rt.alloc(), &engine, &mut pass)?;
    assert_eq!(&rt; counts.connections, 200);
    Ok(())
}

#[test]
fn two_jobs_are_evaluated_beside_each_other(rt: HostRuntime) -> Result<(), Fail> {
    let (engine, mut first) = new_engine(rt.alloc())?;
    assert!(&rt; subscribe(&rt, rt.alloc(), &engine, &mut first)?);
    assert!(&rt; is_done(&rt, rt.alloc(), &engine, &mut first, SUBSCRIBE_IDS)?);
    let _due = reply_to(&rt, rt.alloc(), &engine, &mut first, Event::Tick)?;
    let second = engine.split(&mut first)?;
    let hold = Hold::new();
    let mut pass = poll_by_two(&rt, rt.alloc(), &engine, first, second, &hold)?;
    let gate = HoldGate::new(&hold, LIMIT);
    assert_eq!(&rt; gate.stop(), Some(HoldStop::Called));
    assert_eq!(&rt;
        counts(&rt, rt.alloc(), &engine, &mut pass)?,
        Counts {
            connections: 1,
            live: 2,
            due: 0,
            jobs: 0,
            version: 0,
        }
    );
    Ok(())
}
