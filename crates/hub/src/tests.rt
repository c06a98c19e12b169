ghost use Rattle.std.specs.Prelude.{◌≡◌, ◌^◌, ◌<◌, OnOk};

use crate::{CommitReply, ConnReply, DrainReply, Hub, QueuedList};
use data_model::Reason;
use role_schema::Meta;
use scalar_val::{NoMemory, Steps};
use std::alloc::Global;
use std::marker::Brand;
use std::sync::ledger::{Blank, Ledger};
use std::test::Fail;
use tx_apply::read_tx;
use wire_model::CloseReason;

/// Metadata of one table.
const META: &str = r#"version = 1
[[tables]]
name = "user"
key = ["id"]
columns = [{ name = "id", type = "int" }, { name = "name", type = "text", nullable = true }]
"#;

const INIT: &str = r#"{"type":"connection_init"}"#;

const PING: &str = r#"{"type":"ping"}"#;

const SUBSCRIBE: &str =
    r#"{"type":"subscribe","id":"a","payload":{"query":"subscription { user { id } }"}}"#;

const COMPLETE: &str = r#"{"type":"complete","id":"a"}"#;

const INSERT: &str = r#"[{"insert":"user","row":{"id":1,"name":"Ann"}}]"#;

/// What is done with a hub.
#[derive(Clone, Copy)]
enum Act<'a> {
    Open(u32),
    Say(u32, &'a str),
    Binary(u32),
    Timeout(u32),
    Gone(u32),
    Drain(u32),
    Commit(&'a str),
    Tick,
    Take,
    Abandon(u64),
    Skip,
    Report,
}

/// A hub of a few events.
fn has_room(hub: &Hub) -> Result<(), NoMemory>
    ensures { OnOk result (hub.now.events < 2 ^ 62) }
{
    if hub.events() < 1000 {
        Ok(())
    } else {
        Err(NoMemory)
    }
}

fn line(out: &mut Vec<u8>, text: &[u8]) -> Result<(), NoMemory> {
    out.extend_from_slice(text)?;
    out.push(b'\n')?;
    Ok(())
}

fn line_with(alloc: Global, out: &mut Vec<u8>, word: &str, number: u64) -> Result<(), NoMemory> {
    let text = format!(in alloc; "{word} {number}")?;
    line(out, text.as_bytes())
}

fn tell_queued(out: &mut Vec<u8>, queued: &QueuedList) -> Result<(), NoMemory> {
    for said in queued.as_slice() {
        line(out, said.text.as_bytes())?;
    }
    Ok(())
}

fn tell_closed(
    alloc: Global,
    out: &mut Vec<u8>,
    closed: &Option<CloseReason>,
) -> Result<(), NoMemory> {
    match closed {
        Some(reason) => line_with(alloc, out, "closed", u64::from(reason.code())),
        None => line(out, b"did"),
    }
}

fn tell(alloc: Global, out: &mut Vec<u8>, reply: &ConnReply) -> Result<(), NoMemory> {
    match reply {
        ConnReply::Did(effect) => {
            tell_queued(out, &effect.queued)?;
            tell_closed(alloc, out, &effect.closed)
        }
        ConnReply::ConnKnown => line(out, b"known"),
        ConnReply::ConnUnknown => line(out, b"unknown"),
    }
}

fn open(alloc: Global, hub: &mut Hub, conn: u32, out: &mut Vec<u8>) -> Result<(), NoMemory> {
    has_room(hub)?;
    let reply = hub.connect(alloc, conn)?;
    tell(alloc, out, &reply)
}

fn say(
    alloc: Global,
    hub: &mut Hub,
    conn: u32,
    text: &str,
    out: &mut Vec<u8>,
) -> Result<(), NoMemory> {
    has_room(hub)?;
    let reply = hub.recv(alloc, conn, text)?;
    tell(alloc, out, &reply)
}

fn say_binary(alloc: Global, hub: &mut Hub, conn: u32, out: &mut Vec<u8>) -> Result<(), NoMemory> {
    has_room(hub)?;
    let reply = hub.binary(alloc, conn);
    tell(alloc, out, &reply)
}

fn time_out(alloc: Global, hub: &mut Hub, conn: u32, out: &mut Vec<u8>) -> Result<(), NoMemory> {
    has_room(hub)?;
    let reply = hub.timeout(alloc, conn);
    tell(alloc, out, &reply)
}

fn go(alloc: Global, hub: &mut Hub, conn: u32, out: &mut Vec<u8>) -> Result<(), NoMemory> {
    has_room(hub)?;
    let reply = hub.gone(alloc, conn);
    tell(alloc, out, &reply)
}

fn drain(alloc: Global, hub: &mut Hub, conn: u32, out: &mut Vec<u8>) -> Result<(), NoMemory> {
    has_room(hub)?;
    match hub.drain_one(conn) {
        DrainReply::ConnUnknown => line(out, b"unknown"),
        DrainReply::Sent(text) => line(out, text.as_bytes()),
        DrainReply::Empty => line(out, b"empty"),
        DrainReply::Done(reason) => line_with(alloc, out, "done", u64::from(reason.code())),
    }
}

fn reason_name(reason: Reason) -> &'static str {
    match reason {
        Reason::KeyTaken => "key taken",
        _ => "refused",
    }
}

fn commit<L: Ledger>(
    alloc: Global,
    hub: &mut Hub,
    text: &str,
    steps: &mut Steps<L>,
    out: &mut Vec<u8>,
) -> Result<(), NoMemory> {
    has_room(hub)?;
    let Ok(tx) = read_tx(alloc, text) else {
        return Err(NoMemory);
    };
    match hub.commit(alloc, &tx, steps)? {
        CommitReply::Committed(version) => line_with(alloc, out, "committed", version),
        CommitReply::Refused(fault) => line(out, reason_name(fault.reason).as_bytes()),
    }
}

fn tick(alloc: Global, hub: &mut Hub, out: &mut Vec<u8>) -> Result<(), NoMemory> {
    has_room(hub)?;
    let due = hub.tick();
    line_with(alloc, out, "due", due)
}

fn take(alloc: Global, hub: &mut Hub, out: &mut Vec<u8>) -> Result<(), NoMemory> {
    has_room(hub)?;
    match hub.take(alloc)? {
        Some(job) => line_with(alloc, out, "job", job.number),
        None => line(out, b"nobody"),
    }
}

fn abandon(hub: &mut Hub, number: u64, out: &mut Vec<u8>) -> Result<(), NoMemory> {
    has_room(hub)?;
    if hub.abandon(number) {
        line(out, b"abandoned")
    } else {
        line(out, b"not open")
    }
}

fn skip(hub: &mut Hub) -> Result<(), NoMemory> {
    has_room(hub)?;
    hub.skip();
    Ok(())
}

/// The counts of connections, live and due subscriptions, jobs and transactions.
fn report(alloc: Global, hub: &Hub, out: &mut Vec<u8>) -> Result<(), NoMemory> {
    let counts = hub.report();
    let (connections, live, due) = (counts.connections, counts.live, counts.due);
    let (jobs, version) = (counts.jobs, counts.version);
    let text = format!(in alloc; "{connections} {live} {due} {jobs} {version}")?;
    line(out, text.as_bytes())
}

fn act_on_jobs<L: Ledger>(
    alloc: Global,
    hub: &mut Hub,
    act: &Act<'_>,
    steps: &mut Steps<L>,
    out: &mut Vec<u8>,
) -> Result<(), NoMemory> {
    match act {
        Act::Commit(text) => commit(alloc, hub, text, steps, out),
        Act::Tick => tick(alloc, hub, out),
        Act::Take => take(alloc, hub, out),
        Act::Abandon(number) => abandon(hub, *number, out),
        Act::Skip => skip(hub),
        _ => report(alloc, hub, out),
    }
}

fn act_on<L: Ledger>(
    alloc: Global,
    hub: &mut Hub,
    act: &Act<'_>,
    steps: &mut Steps<L>,
    out: &mut Vec<u8>,
) -> Result<(), NoMemory> {
    match act {
        Act::Open(conn) => open(alloc, hub, *conn, out),
        Act::Say(conn, text) => say(alloc, hub, *conn, text, out),
        Act::Binary(conn) => say_binary(alloc, hub, *conn, out),
        Act::Timeout(conn) => time_out(alloc, hub, *conn, out),
        Act::Gone(conn) => go(alloc, hub, *conn, out),
        Act::Drain(conn) => drain(alloc, hub, *conn, out),
        _ => act_on_jobs(alloc, hub, act, steps, out),
    }
}

fn new_hub(alloc: Global) -> Result<Hub, NoMemory> {
    match Meta::read(alloc, META.as_bytes()) {
        Ok(meta) => Hub::new(alloc, meta),
        Err(_) => Err(NoMemory),
    }
}

fn act_all<L: Ledger>(
    alloc: Global,
    blank: Blank,
    acts: &[Act<'_>],
    out: &mut Vec<u8>,
) -> Result<(), NoMemory>
    requires name { blank.name ≡ L.name }
    requires parts { blank.parts ≡ L.parts }
    requires some { 0 < blank.parts }
{
    let mut steps = Steps::<L>::new(blank);
    let mut hub = new_hub(alloc)?;
    for act in acts {
        act_on(alloc, &mut hub, act, &mut steps, out)?;
    }
    Ok(())
}

/// Whether these acts are answered by these lines.
fn answers(alloc: Global, acts: &[Act<'_>], expected: &str) -> Result<bool, Fail> {
    let mut out = Vec::new(alloc);
    act_all::<Brand>(alloc, Blank::new(1), acts, &mut out)?;
    Ok(out.as_slice() == expected.as_bytes())
}

#[test]
fn connections_are_known_until_they_go(rt: HostRuntime) -> Result<(), Fail> {
    let acts = [
        Act::Gone(1),
        Act::Open(1),
        Act::Open(1),
        Act::Drain(1),
        Act::Gone(1),
        Act::Drain(1),
        Act::Say(1, INIT),
        Act::Binary(1),
    ];
    let expected = "unknown\ndid\nknown\nempty\ndid\nunknown\nunknown\nunknown\n";
    assert!(rt; answers(rt.alloc(), &acts, expected)?);
    Ok(())
}

#[test]
fn a_timeout_closes_a_fresh_connection_alone(rt: HostRuntime) -> Result<(), Fail> {
    let acts = [
        Act::Timeout(1),
        Act::Open(1),
        Act::Open(2),
        Act::Timeout(1),
        Act::Timeout(1),
        Act::Drain(1),
        Act::Say(2, INIT),
        Act::Timeout(2),
        Act::Drain(2),
        Act::Drain(2),
    ];
    let expected = r#"unknown
did
did
closed 4408
did
done 4408
{"type":"connection_ack"}
did
did
{"type":"connection_ack"}
empty
"#;
    assert!(rt; answers(rt.alloc(), &acts, expected)?);
    Ok(())
}

#[test]
fn a_closed_connection_gives_what_was_queued(rt: HostRuntime) -> Result<(), Fail> {
    let acts = [
        Act::Open(1),
        Act::Say(1, PING),
        Act::Say(1, PING),
        Act::Binary(1),
        Act::Drain(1),
        Act::Drain(1),
        Act::Drain(1),
        Act::Drain(1),
    ];
    let expected = r#"did
{"type":"pong"}
did
{"type":"pong"}
did
closed 4400
{"type":"pong"}
{"type":"pong"}
done 4400
done 4400
"#;
    assert!(rt; answers(rt.alloc(), &acts, expected)?);
    Ok(())
}

#[test]
fn accepted_transactions_are_counted(rt: HostRuntime) -> Result<(), Fail> {
    let acts = [
        Act::Commit(INSERT),
        Act::Commit(INSERT),
        Act::Commit(r#"[{"delete":"user","key":{"id":1}}]"#),
        Act::Skip,
        Act::Report,
    ];
    let expected = "committed 1\nkey taken\ncommitted 2\n0 0 0 0 2\n";
    assert!(rt; answers(rt.alloc(), &acts, expected)?);
    Ok(())
}

#[test]
fn abandoned_members_are_due_again(rt: HostRuntime) -> Result<(), Fail> {
    let acts = [
        Act::Open(1),
        Act::Say(1, INIT),
        Act::Say(1, SUBSCRIBE),
        Act::Take,
        Act::Tick,
        Act::Take,
        Act::Tick,
        Act::Report,
        Act::Abandon(2),
        Act::Abandon(1),
        Act::Abandon(1),
        Act::Report,
        Act::Take,
    ];
    let expected = r#"did
{"type":"connection_ack"}
did
did
nobody
due 1
job 1
due 0
1 1 0 1 0
not open
abandoned
not open
1 1 1 0 0
job 2
"#;
    assert!(rt; answers(rt.alloc(), &acts, expected)?);
    Ok(())
}

#[test]
fn ended_members_are_kept_while_their_job_is_open(rt: HostRuntime) -> Result<(), Fail> {
    let acts = [
        Act::Open(1),
        Act::Say(1, INIT),
        Act::Say(1, SUBSCRIBE),
        Act::Tick,
        Act::Take,
        Act::Say(1, COMPLETE),
        Act::Say(1, SUBSCRIBE),
        Act::Tick,
        Act::Gone(1),
        Act::Abandon(1),
        Act::Tick,
        Act::Report,
    ];
    let expected = r#"did
{"type":"connection_ack"}
did
did
due 1
job 1
did
did
due 0
did
abandoned
due 0
0 0 0 0 0
"#;
    assert!(rt; answers(rt.alloc(), &acts, expected)?);
    Ok(())
}

#[test]
fn a_new_hub_has_its_metadata(rt: HostRuntime) -> Result<(), Fail> {
    let hub = new_hub(rt.alloc())?;
    assert_eq!(rt; hub.events(), 0);
    assert_eq!(rt; hub.due(), 0);
    assert!(rt; !hub.knows(1));
    assert_eq!(rt; hub.meta().catalog().tables.as_slice().len(), 1);
    Ok(())
}
