ghost use Rattle.std.specs.Prelude.{◌≡◌};

use crate::{
    Accepted, Clock, Link, LinkIn, LinkItem, LinkOut, ListClock, Listener, MemLink, MemListener,
    MemSpawner, Opened, Opens, Sent, Spawner, Work,
};
use scalar_val::Str;
use std::alloc::Global;
use std::io;
use std::io::Write;
use std::sync::Wait;
use std::test::Fail;

/// The items of a short conversation.
fn items(alloc: Global) -> Result<Vec<LinkItem>, Fail> {
    Ok(Vec::from_array(
        alloc,
        [
            LinkItem::Text(Str::of(alloc, "hi")?),
            LinkItem::Binary,
            LinkItem::Idle,
            LinkItem::PeerClosed,
        ],
    )?)
}

fn word_of(answer: LinkIn) -> &'static str {
    match answer {
        LinkIn::Text(_) => "text",
        LinkIn::Binary => "binary",
        LinkIn::Idle => "idle",
        LinkIn::PeerClosed => "closed",
        LinkIn::Failed => "failed",
        LinkIn::NoMemory => "memory",
    }
}

/// What was sent, a line for each.
fn transcript(alloc: Global, sent: &[LinkOut]) -> Result<Vec<u8>, Fail> {
    let mut out = Vec::new(alloc);
    for one in sent {
        match one {
            LinkOut::Text(text) => out.extend_from_slice(text.as_slice())?,
            LinkOut::Close { code, reason } => {
                write!(out, "{code} ")?;
                out.extend_from_slice(reason.as_slice())?;
            }
        }
        out.push(b'\n')?;
    }
    Ok(out)
}

#[test]
fn a_link_in_memory_gives_its_items(rt: HostRuntime) -> Result<(), Fail> {
    let alloc = rt.alloc();
    let Opened::Link(mut link) = MemLink::new(alloc, items(alloc)?, Vec::new(alloc)).open_link()
    else {
        return Err(Fail::from("another answer"));
    };
    for want in ["text", "binary", "idle", "closed", "closed"] {
        assert_eq!(rt; word_of(link.recv()), want);
    }
    assert_eq!(rt; link.left(), 0);
    Ok(())
}

#[test]
fn a_link_in_memory_gives_the_text_that_comes(rt: HostRuntime) -> Result<(), Fail> {
    let alloc = rt.alloc();
    let mut link = MemLink::new(alloc, items(alloc)?, Vec::new(alloc));
    let LinkIn::Text(text) = link.recv() else {
        return Err(Fail::from("another answer"));
    };
    assert_eq!(rt; text.as_str(), "hi");
    Ok(())
}

#[test]
fn a_link_in_memory_keeps_what_was_sent(rt: HostRuntime) -> Result<(), Fail> {
    let alloc = rt.alloc();
    let mut link = MemLink::new(alloc, Vec::new(alloc), Vec::new(alloc));
    assert_eq!(rt; link.send(b"one"), Sent::Done);
    assert_eq!(rt; link.close(4400, b"Invalid message"), Sent::Done);
    assert_eq!(rt;
        transcript(alloc, link.sent())?.as_slice(),
        b"one\n4400 Invalid message\n".as_slice()
    );
    Ok(())
}

#[test]
fn a_link_in_memory_fails_at_the_given_calls(rt: HostRuntime) -> Result<(), Fail> {
    let alloc = rt.alloc();
    let mut link = MemLink::new(alloc, items(alloc)?, [1, 3, 5].to_vec(alloc)?);
    assert_eq!(rt; word_of(link.recv()), "failed");
    assert_eq!(rt; link.send(b"one"), Sent::Done);
    assert_eq!(rt; link.send(b"two"), Sent::Failed);
    assert_eq!(rt; link.close(1, b""), Sent::Done);
    assert_eq!(rt; link.close(2, b""), Sent::Failed);
    assert_eq!(rt; word_of(link.recv()), "text");
    assert_eq!(rt; link.sent().len(), 2);
    assert_eq!(rt; link.faults(), 3);
    Ok(())
}

fn number_of(answer: Accepted<u8>) -> Option<u8> {
    match answer {
        Accepted::Conn(number) => Some(number),
        Accepted::End | Accepted::Failed => None,
    }
}

#[test]
fn a_listener_in_memory_gives_its_connections(rt: HostRuntime) -> Result<(), Fail> {
    let alloc = rt.alloc();
    let mut listener = MemListener::new([7, 8].to_vec(alloc)?, [2, 4].to_vec(alloc)?);
    assert_eq!(rt; listener.last_port(), None);
    assert!(rt; listener.listen(80));
    assert!(rt; !listener.listen(81));
    assert_eq!(rt; listener.last_port(), Some(80));
    assert_eq!(rt; number_of(listener.accept()), Some(7));
    assert!(rt; matches!(listener.accept(), Accepted::Failed));
    assert_eq!(rt; listener.left(), 1);
    assert_eq!(rt; number_of(listener.accept()), Some(8));
    assert!(rt; matches!(listener.accept(), Accepted::End));
    assert_eq!(rt; listener.faults(), 2);
    Ok(())
}

/// A work that answers its number.
#[derive(Drop)]
struct Number(u8);

impl Work for Number {
    type Out = u8;

    ghost suits = { λ work answer. answer ≡ work.0 };

    fn run<R: Wait>(self, _rt: &R) -> u8 {
        let Number(number) = self;
        number
    }
}

#[test]
fn a_spawner_in_memory_fails_at_the_given_calls_and_past_its_room(
    rt: HostRuntime,
) -> Result<(), Fail> {
    let alloc = rt.alloc();
    let mut spawner = MemSpawner::new(alloc, 2, [2].to_vec(alloc)?)?;
    for want in [true, false, true, false] {
        assert_eq!(rt; spawner.start(Number(1)), want);
    }
    assert_eq!(rt; spawner.faults(), 2);
    Ok(())
}

#[test]
fn a_spawner_in_memory_keeps_what_it_started(rt: HostRuntime) -> Result<(), Fail> {
    let alloc = rt.alloc();
    let mut spawner = MemSpawner::new(alloc, 2, Vec::new(alloc))?;
    for number in [3, 1] {
        assert!(rt; spawner.start(Number(number)));
    }
    let mut answers = Vec::new(alloc);
    for work in spawner.into_started() {
        answers.push(work.run(&rt))?;
    }
    assert_eq!(rt; answers.as_slice(), [3, 1].as_slice());
    Ok(())
}

#[test]
fn a_clock_over_a_list_repeats_its_last_time(rt: HostRuntime) -> Result<(), Fail> {
    let alloc = rt.alloc();
    let mut clock = ListClock::new([5, 3, 3000].to_vec(alloc)?);
    for want in [5u64, 3, 3000, 3000, 3000] {
        assert_eq!(rt; clock.now_ms(), want);
        clock.rest(&rt, 1_000_000);
    }
    assert_eq!(rt; ListClock::new(Vec::new(alloc)).now_ms(), 0);
    Ok(())
}
