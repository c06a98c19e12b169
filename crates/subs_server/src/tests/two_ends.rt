//! Both ends in one process: a client, and the works that serve it.
ghost use Rattle.std.specs.Prelude.{◌≢◌, None};

use crate::tests::asking::{Beside, Doing, OneRun, beside, commits, start};
use crate::{End, Task, serve_conn};
use outside::{Link, LinkIn, ListClock, Sent, Work};
use scalar_val::Str;
use std::alloc::Global;
use std::collections::VecDeque;
use std::sync::atomic::{AtomicU64, Ordering};
use std::sync::{Arc, Wait};
use std::test::Fail;

const INIT: &str = r#"{"type":"connection_init"}"#;

const USERS: &str =
    r#"{"type":"subscribe","id":"a","payload":{"query":"subscription { user { id name } }"}}"#;

const ANN: &str = "[{\"insert\":\"user\",\"row\":{\"id\":1,\"name\":\"Ann\"}}]\n";

const HEARD: &str = r#"{"type":"connection_ack"}
{"type":"next","id":"a","payload":{"data":{"user":[]}}}
{"type":"next","id":"a","payload":{"data":{"user":[{"id":1,"name":"Ann"}]}}}
close 4429 Too many initialisation requests
"#;

/// What is next at the client's end: it says something, or waits while another work is done.
#[derive(Drop)]
enum Act {
    Says(&'static str),
    Awaits(Beside),
}

/// A link to a client, which keeps a line for each thing that it hears.
#[derive(Drop)]
struct Client<R> {
    rt: R,
    alloc: Global,
    acts: VecDeque<Act>,
    heard: Vec<u8>,
}

impl<R> Client<R> {
    fn hear(&mut self, line: &[u8]) -> Sent
        ensures { result ≢ Sent.Failed }
    {
        if self.heard.extend_from_slice(line).is_err() || self.heard.push(b'\n').is_err() {
            return Sent::NoMemory;
        }
        Sent::Done
    }
}

impl<R: Wait> Link for Client<R> {
    ghost coming = { λ _. None };

    ghost sent = { λ _. None };

    ghost faults = { λ _. 0 };

    fn recv(&mut self) -> LinkIn {
        match self.acts.pop_front() {
            Some(Act::Says(text)) => match Str::of(self.alloc, text) {
                Ok(text) => LinkIn::Text(text),
                Err(_) => LinkIn::NoMemory,
            },
            Some(Act::Awaits(work)) => {
                drop(work.run(&self.rt));
                LinkIn::Idle
            }
            None => LinkIn::PeerClosed,
        }
    }

    fn send(&mut self, text: &[u8]) -> Sent {
        self.hear(text)
    }

    fn close(&mut self, code: u16, reason: &[u8]) -> Sent {
        let Ok(front) = format!(in self.alloc; "close {code} ") else {
            return Sent::NoMemory;
        };
        if self.heard.extend_from_slice(front.as_bytes()).is_err() {
            return Sent::NoMemory;
        }
        self.hear(reason)
    }
}

fn polls(alloc: Global) -> Doing {
    Task::Poll {
        ticks: true,
        refetch_ms: 1000,
        clock: ListClock::new(Vec::new(alloc)),
        gate: OneRun,
    }
}

#[test]
fn a_client_hears_of_a_commit(rt: HostRuntime) -> Result<(), Fail> {
    let alloc = rt.alloc();
    let (engine, mut pass) = start(alloc)?;
    let met = Arc::new(alloc, AtomicU64::new(0))?;
    let mut acts = VecDeque::new(alloc);
    acts.push_back(Act::Says(INIT))?;
    acts.push_back(Act::Says(USERS))?;
    acts.push_back(Act::Awaits(beside(alloc, &engine, &mut pass, polls(alloc))?))?;
    let one = commits(alloc, &met, &[(ANN, "commit 1\n")])?;
    acts.push_back(Act::Awaits(beside(alloc, &engine, &mut pass, one)?))?;
    acts.push_back(Act::Awaits(beside(alloc, &engine, &mut pass, polls(alloc))?))?;
    acts.push_back(Act::Says(INIT))?;
    let mut client = Client {
        rt,
        alloc,
        acts,
        heard: Vec::new(alloc),
    };
    let mut clock = ListClock::new(Vec::new(alloc));
    let end = serve_conn(&rt, alloc, &engine, &mut pass, 1, &mut client, &mut clock);
    assert_eq!(&rt; end, End::Closed(4429));
    assert_eq!(&rt; met.load(Ordering::SeqCst), 9);
    assert_eq!(&rt; client.heard.as_slice(), HEARD.as_bytes());
    Ok(())
}
