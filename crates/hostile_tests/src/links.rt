//! A link that fails, at each of its calls.
ghost use Rattle.std.specs.Prelude.{◌≡◌, false, IfOk};

use connection_server::{End, serve_conn};
use outside::{LinkItem, LinkOut, ListClock, MemLink};
use role_schema::Meta;
use scalar_val::Str;
use std::alloc::Global;
use std::sync::Wait;
use std::test::Fail;
use subs_engine::{Counts, Engine, Event, Pass, Reply};

const METADATA: &str = r#"version = 1
[[tables]]
name = "user"
key = ["id"]
columns = [{ name = "id", type = "int" }, { name = "name", type = "text", nullable = true }]
"#;

/// What comes over the link before the peer closes.
const SAID: [&str; 3] = [
    r#"{"type":"connection_init"}"#,
    r#"{"type":"subscribe","id":"a","payload":{"query":"subscription { user { id name } }"}}"#,
    r#"{"type":"ping"}"#,
];

/// The numbers of calls, each with how many texts were sent where it fails: that of the first text, its answer, the second,
/// the third, its answer, and the close. The last one doesn't come.
const SENT: [(u64, usize); 7] = [(1, 0), (2, 0), (3, 1), (4, 1), (5, 1), (6, 2), (7, 2)];

fn start(alloc: Global) -> Result<(Engine, Pass), Fail>
    ensures { IfOk result (λ started. (started.1.lock ≡ started.0) × (started.1.has_turn ≡ false)) }
{
    match Meta::read(alloc, METADATA.as_bytes()) {
        Ok(meta) => Ok(Engine::new(alloc, meta)?),
        Err(_fault) => Err(Fail::from("the metadata isn't read")),
    }
}

fn texts(alloc: Global) -> Result<Vec<LinkItem>, Fail> {
    let mut items = Vec::new(alloc);
    for text in SAID {
        items.push(LinkItem::Text(Str::of(alloc, text)?))?;
    }
    Ok(items)
}

/// What there is, as a pass sees it that serves no connection.
fn counted<R: Wait>(rt: &R, alloc: Global, engine: &Engine, pass: &mut Pass) -> Result<Counts, Fail>
    requires { (pass.old.lock ≡ engine.now) × (pass.old.has_turn ≡ false) }
{
    match engine.call(rt, alloc, pass, Event::Report) {
        Ok(Reply::Report(counts)) => Ok(counts),
        _ => Err(Fail::from("no report")),
    }
}

/// Serves a connection over a link that fails at the call of this number: the end, how many texts were sent, and what
/// there is afterwards.
fn served<R: Wait>(rt: &R, alloc: Global, call: u64) -> Result<(End, usize, Counts), Fail> {
    let (engine, mut pass) = start(alloc)?;
    let mut other = engine.split(&mut pass)?;
    let mut failing = Vec::new(alloc);
    failing.push(call)?;
    let mut link = MemLink::new(alloc, texts(alloc)?, failing);
    let mut clock = ListClock::new(Vec::new(alloc));
    let end = serve_conn(rt, alloc, &engine, &mut pass, 7, &mut link, &mut clock);
    let counts = counted(rt, alloc, &engine, &mut other)?;
    Ok((end, link.sent().len(), counts))
}

#[test]
fn a_link_that_fails_at_any_call_leaves_nothing(rt: HostRuntime) -> Result<(), Fail> {
    let alloc = rt.alloc();
    for (call, wanted) in SENT {
        let (end, sent, counts) = served(&rt, alloc, call)?;
        assert_eq!(&rt; end == End::LinkFault, call <= 6);
        assert_eq!(&rt; end == End::PeerClosed, call > 6);
        assert_eq!(&rt; sent, wanted);
        let Counts {
            connections,
            live,
            due,
            jobs,
            version: _,
        } = counts;
        assert_eq!(&rt; (connections, live, due, jobs), (0, 0, 0, 0));
    }
    Ok(())
}
