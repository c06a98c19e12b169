//! What the tests call.
ghost use Rattle.std.specs.Prelude.{◌≡◌, false, IfOk};

use role_schema::Meta;
use scalar_val::Str;
use std::alloc::Global;
use std::sync::Wait;
use std::test::Fail;
use subs_engine::{ConnReply, Counts, Engine, Event, Pass, Reply};

const META: &str = r#"version = 1
[[tables]]
name = "user"
key = ["id"]
columns = [{ name = "id", type = "int" }, { name = "name", type = "text", nullable = true }]
"#;

const INIT: &str = r#"{"type":"connection_init"}"#;

const SUBSCRIBE: &str =
    r#"{"type":"subscribe","id":"a","payload":{"query":"subscription { user { id name } }"}}"#;

pub(crate) fn new_engine(alloc: Global) -> Result<(Engine, Pass), Fail>
    ensures { IfOk result (λ r. (r.1.lock ≡ r.0) × (r.1.has_turn ≡ false)) }
{
    match Meta::read(alloc, META.as_bytes()) {
        Ok(meta) => Ok(Engine::new(alloc, meta)?),
        Err(_fault) => Err(Fail::from("the metadata isn't read")),
    }
}

pub(crate) fn reply_to<R: Wait>(
    rt: &R,
    alloc: Global,
    engine: &Engine,
    pass: &mut Pass,
    event: Event,
) -> Result<Reply, Fail>
    requires { (pass.old.lock ≡ engine.now) × (pass.old.has_turn ≡ false) }
    ensures { (pass.new.lock ≡ pass.old.lock) × (pass.new.has_turn ≡ false) }
{
    match engine.call(rt, alloc, pass, event) {
        Ok(reply) => Ok(reply),
        Err(_fault) => Err(Fail::from("no reply")),
    }
}

// A text is received and done.
pub(crate) fn is_done<R: Wait>(
    rt: &R,
    alloc: Global,
    engine: &Engine,
    pass: &mut Pass,
    text: &str,
) -> Result<bool, Fail>
    requires { (pass.old.lock ≡ engine.now) × (pass.old.has_turn ≡ false) }
    ensures { (pass.new.lock ≡ pass.old.lock) × (pass.new.has_turn ≡ false) }
{
    let text = Event::Text(1, Str::of(alloc, text)?);
    let reply = reply_to(rt, alloc, engine, pass, text)?;
    Ok(matches!(reply, Reply::Conn(ConnReply::Did(_))))
}

// A connection with a subscription.
pub(crate) fn subscribe<R: Wait>(
    rt: &R,
    alloc: Global,
    engine: &Engine,
    pass: &mut Pass,
) -> Result<bool, Fail>
    requires { (pass.old.lock ≡ engine.now) × (pass.old.has_turn ≡ false) }
    ensures { (pass.new.lock ≡ pass.old.lock) × (pass.new.has_turn ≡ false) }
{
    let _opened = reply_to(rt, alloc, engine, pass, Event::Connect(1))?;
    let known = is_done(rt, alloc, engine, pass, INIT)?;
    let subscribed = is_done(rt, alloc, engine, pass, SUBSCRIBE)?;
    Ok(known && subscribed)
}

/// What there is.
pub(crate) fn counts<R: Wait>(
    rt: &R,
    alloc: Global,
    engine: &Engine,
    pass: &mut Pass,
) -> Result<Counts, Fail>
    requires { (pass.old.lock ≡ engine.now) × (pass.old.has_turn ≡ false) }
    ensures { (pass.new.lock ≡ pass.old.lock) × (pass.new.has_turn ≡ false) }
{
    match reply_to(rt, alloc, engine, pass, Event::Report)? {
        Reply::Report(counts) => Ok(counts),
        _ => Err(Fail::from("no report")),
    }
}
