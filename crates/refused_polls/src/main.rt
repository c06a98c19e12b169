//! A program that polls once, and once more where the first poll was refused memory. It is run with memory refused, to
//! see that a refused poll leaves its subscription due and no job open, and that the next one tells its client.
//!
//! The status is 0 where the client was told, 4 where memory was refused before the first poll, and else 1.
#![tactic(auto)]

ghost use Rattle.std.specs.Prelude.{◌≡◌, ◌<◌, false, IfOk};

use role_schema::Meta;
use scalar_val::{NoMemory, Steps, Str};
use std::alloc::Global;
use std::marker::Brand;
use std::process::ExitCode;
use std::sync::Wait;
use std::sync::ledger::{Blank, Ledger};
use subs_engine::{Counts, DrainReply, Engine, Event, FreeGate, Pass, Polled, Reply};

const META: &str = r#"version = 1
[[tables]]
name = "user"
key = ["id"]
columns = [{ name = "id", type = "int" }, { name = "name", type = "text", nullable = true }]
"#;

const INIT: &str = r#"{"type":"connection_init"}"#;

const ACK: &str = r#"{"type":"connection_ack"}"#;

const SUBSCRIBE: &str =
    r#"{"type":"subscribe","id":"a","payload":{"query":"subscription { user { id name } }"}}"#;

const NEXT: &str = r#"{"type":"next","id":"a","payload":{"data":{"user":[]}}}"#;

const TOLD: u8 = 0;

const WRONG: u8 = 1;

const NO_MEMORY: u8 = 4;

fn main(rt: HostRuntime) -> ExitCode {
    ExitCode::from(run(&rt, rt.alloc()))
}

fn new_engine(alloc: Global) -> Result<(Engine, Pass), NoMemory>
    ensures { IfOk result (λ r. (r.1.lock ≡ r.0) × (r.1.has_turn ≡ false)) }
{
    match Meta::read(alloc, META.as_bytes()) {
        Ok(meta) => Ok(Engine::new(alloc, meta)?),
        Err(_fault) => Err(NoMemory),
    }
}

fn reply_to<R: Wait>(
    rt: &R,
    alloc: Global,
    engine: &Engine,
    pass: &mut Pass,
    event: Event,
) -> Result<Reply, NoMemory>
    requires { (pass.old.lock ≡ engine.now) × (pass.old.has_turn ≡ false) }
    ensures { (pass.new.lock ≡ pass.old.lock) × (pass.new.has_turn ≡ false) }
{
    match engine.call(rt, alloc, pass, event) {
        Ok(reply) => Ok(reply),
        Err(_fault) => Err(NoMemory),
    }
}

/// A connection with a subscription that is due.
fn subscribe<R: Wait>(
    rt: &R,
    alloc: Global,
    engine: &Engine,
    pass: &mut Pass,
) -> Result<(), NoMemory>
    requires { (pass.old.lock ≡ engine.now) × (pass.old.has_turn ≡ false) }
    ensures { (pass.new.lock ≡ pass.old.lock) × (pass.new.has_turn ≡ false) }
{
    let init = Event::Text(1, Str::of(alloc, INIT)?);
    let subscribe = Event::Text(1, Str::of(alloc, SUBSCRIBE)?);
    let _opened = reply_to(rt, alloc, engine, pass, Event::Connect(1))?;
    let _known = reply_to(rt, alloc, engine, pass, init)?;
    let _subscribed = reply_to(rt, alloc, engine, pass, subscribe)?;
    let _due = reply_to(rt, alloc, engine, pass, Event::Tick)?;
    Ok(())
}

/// Whether a poll with a counter of its own has published.
fn polls_counted<R: Wait, L: Ledger>(
    rt: &R,
    alloc: Global,
    engine: &Engine,
    pass: &mut Pass,
    blank: Blank,
) -> bool
    requires pass { (pass.old.lock ≡ engine.now) × (pass.old.has_turn ≡ false) }
    requires name { blank.name ≡ L.name }
    requires parts { blank.parts ≡ L.parts }
    requires some { 0 < blank.parts }
    ensures { (pass.new.lock ≡ pass.old.lock) × (pass.new.has_turn ≡ false) }
{
    let mut steps = Steps::<L>::new(blank);
    let polled = engine.poll_once(rt, alloc, pass, &FreeGate, &mut steps);
    matches!(polled, Ok(Polled::Published(_)))
}

/// Whether a poll has published.
fn polls<R: Wait>(rt: &R, alloc: Global, engine: &Engine, pass: &mut Pass) -> bool
    requires { (pass.old.lock ≡ engine.now) × (pass.old.has_turn ≡ false) }
    ensures { (pass.new.lock ≡ pass.old.lock) × (pass.new.has_turn ≡ false) }
{
    polls_counted::<R, Brand>(rt, alloc, engine, pass, Blank::new(1))
}

/// Whether one subscription lives and is due, and no job is open.
fn is_due<R: Wait>(rt: &R, alloc: Global, engine: &Engine, pass: &mut Pass) -> bool
    requires { (pass.old.lock ≡ engine.now) × (pass.old.has_turn ≡ false) }
    ensures { (pass.new.lock ≡ pass.old.lock) × (pass.new.has_turn ≡ false) }
{
    match reply_to(rt, alloc, engine, pass, Event::Report) {
        Ok(
            Reply::Report(
                Counts {
                    live,
                    due,
                    jobs,
                    ..
                },
            ),
        ) => live == 1 && due == 1 && jobs == 0,
        _ => false,
    }
}

/// Whether this is the first text that is queued.
fn is_sent<R: Wait>(rt: &R, alloc: Global, engine: &Engine, pass: &mut Pass, text: &str) -> bool
    requires { (pass.old.lock ≡ engine.now) × (pass.old.has_turn ≡ false) }
    ensures { (pass.new.lock ≡ pass.old.lock) × (pass.new.has_turn ≡ false) }
{
    match reply_to(rt, alloc, engine, pass, Event::Drain(1)) {
        Ok(Reply::Drain(DrainReply::Sent(sent))) => sent.as_bytes() == text.as_bytes(),
        _ => false,
    }
}

/// Polls once, and once more where that was refused and has left its subscription due.
fn polls_at_last<R: Wait>(rt: &R, alloc: Global, engine: &Engine, pass: &mut Pass) -> bool
    requires { (pass.old.lock ≡ engine.now) × (pass.old.has_turn ≡ false) }
    ensures { (pass.new.lock ≡ pass.old.lock) × (pass.new.has_turn ≡ false) }
{
    if polls(rt, alloc, engine, pass) {
        return true;
    }
    if !is_due(rt, alloc, engine, pass) {
        return false;
    }
    polls(rt, alloc, engine, pass)
}

fn run<R: Wait>(rt: &R, alloc: Global) -> u8 {
    let Ok((engine, mut pass)) = new_engine(alloc) else {
        return NO_MEMORY;
    };
    if subscribe(rt, alloc, &engine, &mut pass).is_err() {
        return NO_MEMORY;
    }
    if !polls_at_last(rt, alloc, &engine, &mut pass) {
        return WRONG;
    }
    let acknowledged = is_sent(rt, alloc, &engine, &mut pass, ACK);
    let told = is_sent(rt, alloc, &engine, &mut pass, NEXT);
    if acknowledged && told { TOLD } else { WRONG }
}
