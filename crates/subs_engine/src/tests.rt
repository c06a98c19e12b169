ghost use Rattle.std.specs.Prelude.{◌≡◌, ◌<◌, false, IfOk};

use crate::{
    CommitReply, ConnReply, Counts, DrainReply, Engine, Event, FreeGate, Pass, Polled, Reply,
};
use role_schema::Meta;
use scalar_val::{Steps, Str};
use std::alloc::Global;
use std::marker::Brand;
use std::sync::Wait;
use std::sync::ledger::{Blank, Ledger};
use std::test::Fail;
use tx_apply::read_tx;

const META: &str = r#"version = 1
[[tables]]
name = "user"
key = ["id"]
columns = [{ name = "id", type = "int" }, { name = "name", type = "text", nullable = true }]
"#;

const INIT: &str = r#"{"type":"connection_init"}"#;

const ACK: &str = r#"{"type":"connection_ack"}"#;

const SUBSCRIBE: &str =
    r#"{"type":"subscribe","id":"a","payload":{"query":"subscription { user { id name } }"}}"#;

const NEXT: &str =
    r#"{"type":"next","id":"a","payload":{"data":{"user":[{"id":1,"name":"Ann"}]}}}"#;

const ANN: &str = r#"[{"insert":"user","row":{"id":1,"name":"Ann"}}]"#;

fn new_engine(alloc: Global) -> Result<(Engine, Pass), Fail>
    ensures { IfOk result (λ r. (r.1.lock ≡ r.0) × (r.1.has_turn ≡ false)) }
{
    match Meta::read(alloc, META.as_bytes()) {
        Ok(meta) => Ok(Engine::new(alloc, meta)?),
        Err(_fault) => Err(Fail::from("the metadata isn't read")),
    }
}

fn reply_to<R: Wait>(
    rt: &R,
    alloc: Global,
    engine: &Engine,
    pass: &mut Pass,
    event: Event,
) -> Result<Reply, Fail>
    requires { (pass.old.lock ≡ engine.now) × (pass.old.has_turn ≡ false) }
    ensures { (pass.new.lock ≡ pass.old.lock) × (pass.new.has_turn ≡ false) }
{
    match engine.call(rt, alloc, pass, event) {
        Ok(reply) => Ok(reply),
        Err(_fault) => Err(Fail::from("no reply")),
    }
}

// A text is received and done.
fn is_done<R: Wait>(
    rt: &R,
    alloc: Global,
    engine: &Engine,
    pass: &mut Pass,
    text: &str,
) -> Result<bool, Fail>
    requires { (pass.old.lock ≡ engine.now) × (pass.old.has_turn ≡ false) }
    ensures { (pass.new.lock ≡ pass.old.lock) × (pass.new.has_turn ≡ false) }
{
    let text = Event::Text(1, Str::of(alloc, text)?);
    let reply = reply_to(rt, alloc, engine, pass, text)?;
    Ok(matches!(reply, Reply::Conn(ConnReply::Did(_))))
}

// The first text of the queue is this one.
fn is_sent<R: Wait>(
    rt: &R,
    alloc: Global,
    engine: &Engine,
    pass: &mut Pass,
    text: &str,
) -> Result<bool, Fail>
    requires { (pass.old.lock ≡ engine.now) × (pass.old.has_turn ≡ false) }
    ensures { (pass.new.lock ≡ pass.old.lock) × (pass.new.has_turn ≡ false) }
{
    match reply_to(rt, alloc, engine, pass, Event::Drain(1))? {
        Reply::Drain(DrainReply::Sent(sent)) => Ok(sent.as_bytes() == text.as_bytes()),
        _ => Ok(false),
    }
}

// A transaction is accepted as the first.
fn is_first<R: Wait>(
    rt: &R,
    alloc: Global,
    engine: &Engine,
    pass: &mut Pass,
    text: &str,
) -> Result<bool, Fail>
    requires { (pass.old.lock ≡ engine.now) × (pass.old.has_turn ≡ false) }
    ensures { (pass.new.lock ≡ pass.old.lock) × (pass.new.has_turn ≡ false) }
{
    let Ok(tx) = read_tx(alloc, text) else {
        return Err(Fail::from("no transaction"));
    };
    let reply = reply_to(rt, alloc, engine, pass, Event::Commit(tx))?;
    Ok(matches!(reply, Reply::Commit(CommitReply::Committed(1))))
}

// A connection with a subscription.
fn subscribe<R: Wait>(rt: &R, alloc: Global, engine: &Engine, pass: &mut Pass) -> Result<bool, Fail>
    requires { (pass.old.lock ≡ engine.now) × (pass.old.has_turn ≡ false) }
    ensures { (pass.new.lock ≡ pass.old.lock) × (pass.new.has_turn ≡ false) }
{
    let _opened = reply_to(rt, alloc, engine, pass, Event::Connect(1))?;
    let known = is_done(rt, alloc, engine, pass, INIT)?;
    let subscribed = is_done(rt, alloc, engine, pass, SUBSCRIBE)?;
    Ok(known && subscribed)
}

fn poll<R: Wait, L: Ledger>(
    rt: &R,
    alloc: Global,
    engine: &Engine,
    pass: &mut Pass,
    blank: Blank,
) -> Result<Polled, Fail>
    requires pass { (pass.old.lock ≡ engine.now) × (pass.old.has_turn ≡ false) }
    requires name { blank.name ≡ L.name }
    requires parts { blank.parts ≡ L.parts }
    requires some { 0 < blank.parts }
    ensures { (pass.new.lock ≡ pass.old.lock) × (pass.new.has_turn ≡ false) }
{
    let mut steps = Steps::<L>::new(blank);
    match engine.poll_once(rt, alloc, pass, &FreeGate, &mut steps) {
        Ok(polled) => Ok(polled),
        Err(_fault) => Err(Fail::from("no poll")),
    }
}

// A poll after a tick.
fn polled<R: Wait>(rt: &R, alloc: Global, engine: &Engine, pass: &mut Pass) -> Result<Polled, Fail>
    requires { (pass.old.lock ≡ engine.now) × (pass.old.has_turn ≡ false) }
    ensures { (pass.new.lock ≡ pass.old.lock) × (pass.new.has_turn ≡ false) }
{
    let _due = reply_to(rt, alloc, engine, pass, Event::Tick)?;
    poll::<R, Brand>(rt, alloc, engine, pass, Blank::new(1))
}

/// What there is.
fn counts<R: Wait>(rt: &R, alloc: Global, engine: &Engine, pass: &mut Pass) -> Result<Counts, Fail>
    requires { (pass.old.lock ≡ engine.now) × (pass.old.has_turn ≡ false) }
    ensures { (pass.new.lock ≡ pass.old.lock) × (pass.new.has_turn ≡ false) }
{
    match reply_to(rt, alloc, engine, pass, Event::Report)? {
        Reply::Report(counts) => Ok(counts),
        _ => Err(Fail::from("no report")),
    }
}

#[test]
fn a_poll_publishes_what_was_committed(rt: HostRuntime) -> Result<(), Fail> {
    let (engine, mut pass) = new_engine(rt.alloc())?;
    assert!(&rt; subscribe(&rt, rt.alloc(), &engine, &mut pass)?);
    assert!(&rt; is_first(&rt, rt.alloc(), &engine, &mut pass, ANN)?);
    assert_eq!(&rt;
        polled(&rt, rt.alloc(), &engine, &mut pass)?,
        Polled::Published(1)
    );
    assert!(&rt; is_sent(&rt, rt.alloc(), &engine, &mut pass, ACK)?);
    assert!(&rt; is_sent(&rt, rt.alloc(), &engine, &mut pass, NEXT)?);
    Ok(())
}

#[test]
fn two_passes_share_one_history(rt: HostRuntime) -> Result<(), Fail> {
    let (engine, mut pass) = new_engine(rt.alloc())?;
    let mut other = engine.split(&mut pass)?;
    let _opened = reply_to(&rt, rt.alloc(), &engine, &mut pass, Event::Connect(1))?;
    assert!(&rt; is_first(&rt, rt.alloc(), &engine, &mut other, ANN)?);
    engine.join(&mut pass, other);
    assert_eq!(&rt;
        counts(&rt, rt.alloc(), &engine, &mut pass)?,
        Counts {
            connections: 1,
            live: 0,
            due: 0,
            jobs: 0,
            version: 1,
        }
    );
    Ok(())
}
