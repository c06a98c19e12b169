ghost use Rattle.std.specs.Prelude.{◌≡◌, ◌<◌, false, IfOk};

use crate::poll_worker;
use outside::ListClock;
use role_schema::Meta;
use scalar_val::{Steps, Str};
use std::alloc::Global;
use std::marker::Brand;
use std::sync::Wait;
use std::sync::ledger::{Blank, Ledger};
use std::test::Fail;
use subs_engine::{DrainReply, Engine, Event, Hold, HoldGate, HoldStop, Pass, Reply};

const METADATA: &str = "version = 1
[[tables]]
name = \"user\"
key = [\"id\"]
columns = [{ name = \"id\", type = \"int\" }, { name = \"name\", type = \"text\", nullable = true }]
";

const INIT: &str = "{\"type\":\"connection_init\"}";

const USERS: &str =
    "{\"type\":\"subscribe\",\"id\":\"a\",\"payload\":{\"query\":\"subscription { user { id } }\"}}";

/// So often the gate looks for a second job, which never comes.
const LOOKS: u64 = 3;

fn start(alloc: Global) -> Result<(Engine, Pass), Fail>
    ensures { IfOk result (λ started. (started.1.lock ≡ started.0) × (started.1.has_turn ≡ false)) }
{
    match Meta::read(alloc, METADATA.as_bytes()) {
        Ok(meta) => Ok(Engine::new(alloc, meta)?),
        Err(_fault) => Err(Fail::from("the metadata isn't read")),
    }
}

fn tell<R: Wait>(
    rt: &R,
    alloc: Global,
    engine: &Engine,
    pass: &mut Pass,
    event: Event,
) -> Result<(), Fail>
    requires { (pass.old.lock ≡ engine.now) × (pass.old.has_turn ≡ false) }
    ensures { (pass.new.lock ≡ pass.old.lock) × (pass.new.has_turn ≡ false) }
{
    match engine.call(rt, alloc, pass, event) {
        Ok(_) => Ok(()),
        Err(_) => Err(Fail::from("no reply")),
    }
}

fn say<R: Wait>(
    rt: &R,
    alloc: Global,
    engine: &Engine,
    pass: &mut Pass,
    text: &str,
) -> Result<(), Fail>
    requires { (pass.old.lock ≡ engine.now) × (pass.old.has_turn ≡ false) }
    ensures { (pass.new.lock ≡ pass.old.lock) × (pass.new.has_turn ≡ false) }
{
    let text = Str::of(alloc, text)?;
    tell(rt, alloc, engine, pass, Event::Text(1, text))
}

// A connection with a subscription.
fn with_subscription<R: Wait>(rt: &R, alloc: Global) -> Result<(Engine, Pass), Fail>
    ensures { IfOk result (λ started. (started.1.lock ≡ started.0) × (started.1.has_turn ≡ false)) }
{
    let (engine, mut pass) = start(alloc)?;
    tell(rt, alloc, &engine, &mut pass, Event::Connect(1))?;
    say(rt, alloc, &engine, &mut pass, INIT)?;
    say(rt, alloc, &engine, &mut pass, USERS)?;
    Ok((engine, pass))
}

// Whether a worker that makes ticks was told by its gate that the looks are used up.
fn works_with<R: Wait, L: Ledger>(
    rt: &R,
    alloc: Global,
    engine: &Engine,
    pass: &mut Pass,
    blank: Blank,
) -> bool
    requires pass { (pass.old.lock ≡ engine.now) × (pass.old.has_turn ≡ false) }
    requires name { blank.name ≡ L.name }
    requires parts { blank.parts ≡ L.parts }
    requires some { 0 < blank.parts }
    ensures { (pass.new.lock ≡ pass.old.lock) × (pass.new.has_turn ≡ false) }
{
    let hold = Hold::new();
    let gate = HoldGate::new(&hold, LOOKS);
    let mut clock = ListClock::new(Vec::new(alloc));
    let mut steps = Steps::<L>::new(blank);
    let stop = poll_worker(
        rt, alloc, engine, pass, true, 1000, &mut clock, &gate, &mut steps,
    );
    matches!(stop, Ok(HoldStop::Limit))
}

fn works<R: Wait>(rt: &R, alloc: Global, engine: &Engine, pass: &mut Pass) -> bool
    requires { (pass.old.lock ≡ engine.now) × (pass.old.has_turn ≡ false) }
    ensures { (pass.new.lock ≡ pass.old.lock) × (pass.new.has_turn ≡ false) }
{
    works_with::<R, Brand>(rt, alloc, engine, pass, Blank::new(1))
}

// Whether the queue has a text, which is taken out.
fn is_told<R: Wait>(rt: &R, alloc: Global, engine: &Engine, pass: &mut Pass) -> bool
    requires { (pass.old.lock ≡ engine.now) × (pass.old.has_turn ≡ false) }
    ensures { (pass.new.lock ≡ pass.old.lock) × (pass.new.has_turn ≡ false) }
{
    let drained = engine.call(rt, alloc, pass, Event::Drain(1));
    matches!(drained, Ok(Reply::Drain(DrainReply::Sent(_))))
}

#[test]
fn a_worker_makes_a_tick_and_polls(rt: HostRuntime) -> Result<(), Fail> {
    let alloc = rt.alloc();
    let (engine, mut pass) = with_subscription(&rt, alloc)?;
    assert!(&rt; works(&rt, alloc, &engine, &mut pass));
    // the acknowledgement, and then the first result
    assert!(&rt; is_told(&rt, alloc, &engine, &mut pass));
    assert!(&rt; is_told(&rt, alloc, &engine, &mut pass));
    assert!(&rt; !is_told(&rt, alloc, &engine, &mut pass));
    Ok(())
}
