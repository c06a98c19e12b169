ghost use Rattle.std.specs.Prelude.{◌≡◌, false, IfOk};

use crate::{End, serve_conn};
use outside::{LinkItem, LinkOut, ListClock, MemLink};
use role_schema::Meta;
use scalar_val::Str;
use std::alloc::Global;
use std::test::Fail;
use subs_engine::{Counts, Engine, Event, Pass, Reply};

const METADATA: &str = "version = 1
[[tables]]
name = \"user\"
key = [\"id\"]
columns = [{ name = \"id\", type = \"int\" }, { name = \"name\", type = \"text\", nullable = true }]
";

fn start(alloc: Global) -> Result<(Engine, Pass), Fail>
    ensures { IfOk result (λ started. (started.1.lock ≡ started.0) × (started.1.has_turn ≡ false)) }
{
    match Meta::read(alloc, METADATA.as_bytes()) {
        Ok(meta) => Ok(Engine::new(alloc, meta)?),
        Err(_fault) => Err(Fail::from("the metadata isn't read")),
    }
}

fn texts(alloc: Global, said: &[&str]) -> Result<Vec<LinkItem>, Fail> {
    let mut items = Vec::new(alloc);
    for text in said {
        items.push(LinkItem::Text(Str::of(alloc, text)?))?;
    }
    Ok(items)
}

/// What was sent, a line for each text, and one for a close.
fn sent_lines(alloc: Global, link: &MemLink) -> Result<Vec<u8>, Fail> {
    let mut lines = Vec::new(alloc);
    for out in link.sent() {
        match out {
            LinkOut::Text(text) => lines.extend_from_slice(text.as_slice())?,
            LinkOut::Close { code, reason } => {
                lines.extend_from_slice(format!(in alloc; "close {code} ")?.as_bytes())?;
                lines.extend_from_slice(reason.as_slice())?;
            }
        }
        lines.push(b'\n')?;
    }
    Ok(lines)
}

#[test]
fn a_connection_that_says_nothing_is_closed_when_it_is_late(rt: HostRuntime) -> Result<(), Fail> {
    let alloc = rt.alloc();
    let (engine, mut pass) = start(alloc)?;
    let mut link = MemLink::new(alloc, vec![in alloc; LinkItem::Idle]?, Vec::new(alloc));
    let mut clock = ListClock::new(vec![in alloc; 0, 0, 3000]?);
    let end = serve_conn(&rt, alloc, &engine, &mut pass, 7, &mut link, &mut clock);
    assert_eq!(&rt; end, End::Closed(4408));
    let lines = sent_lines(alloc, &link)?;
    assert_eq!(&rt;
        lines.as_slice(),
        b"close 4408 Connection initialisation timeout\n".as_slice()
    );
    Ok(())
}

#[test]
fn texts_are_answered_in_order_until_the_peer_closes(rt: HostRuntime) -> Result<(), Fail> {
    let alloc = rt.alloc();
    let (engine, mut pass) = start(alloc)?;
    let said = [
        "{\"type\":\"ping\"}",
        "{\"type\":\"connection_init\"}",
        "{\"type\":\"ping\"}",
    ];
    let mut link = MemLink::new(alloc, texts(alloc, &said)?, Vec::new(alloc));
    let mut clock = ListClock::new(Vec::new(alloc));
    let end = serve_conn(&rt, alloc, &engine, &mut pass, 7, &mut link, &mut clock);
    assert_eq!(&rt; end, End::PeerClosed);
    let lines = sent_lines(alloc, &link)?;
    let wanted = b"{\"type\":\"pong\"}\n{\"type\":\"connection_ack\"}\n{\"type\":\"pong\"}\n";
    assert_eq!(&rt; lines.as_slice(), wanted.as_slice());
    Ok(())
}

#[test]
fn a_link_that_fails_leaves_no_connection(rt: HostRuntime) -> Result<(), Fail> {
    let alloc = rt.alloc();
    let (engine, mut pass) = start(alloc)?;
    let items = texts(alloc, &["{\"type\":\"connection_init\"}"])?;
    let mut link = MemLink::new(alloc, items, vec![in alloc; 3]?);
    let mut clock = ListClock::new(Vec::new(alloc));
    let end = serve_conn(&rt, alloc, &engine, &mut pass, 7, &mut link, &mut clock);
    assert_eq!(&rt; end, End::LinkFault);
    let lines = sent_lines(alloc, &link)?;
    assert_eq!(&rt;
        lines.as_slice(),
        b"{\"type\":\"connection_ack\"}\n".as_slice()
    );
    match engine.call(&rt, alloc, &mut pass, Event::Report) {
        Ok(Reply::Report(Counts { connections, .. })) => assert_eq!(&rt; connections, 0),
        _ => assert!(&rt; false),
    }
    Ok(())
}

#[test]
fn a_connection_that_is_known_is_not_served(rt: HostRuntime) -> Result<(), Fail> {
    let alloc = rt.alloc();
    let (engine, mut pass) = start(alloc)?;
    let opened = engine.call(&rt, alloc, &mut pass, Event::Connect(7));
    assert!(&rt; opened.is_ok());
    let mut link = MemLink::new(alloc, vec![in alloc; LinkItem::Binary]?, Vec::new(alloc));
    let mut clock = ListClock::new(Vec::new(alloc));
    let end = serve_conn(&rt, alloc, &engine, &mut pass, 7, &mut link, &mut clock);
    assert_eq!(&rt; end, End::ConnKnown);
    assert_eq!(&rt; link.left(), 1);
    Ok(())
}
