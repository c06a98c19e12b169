ghost use Rattle.std.specs.Prelude.{◌≡◌, ◌^◌, ◌<◌, OnOk};

use crate::{ConnReply, DrainReply, Hub, QueuedList};
use role_schema::Meta;
use scalar_val::NoMemory;
use std::alloc::Global;
use std::test::Fail;
use wire_model::CloseReason;

/// Users, of whom no role is told.
const USERS: &str = r#"version = 1
[[tables]]
name = "user"
key = ["id"]
columns = [{ name = "id", type = "int" }, { name = "name", type = "text", nullable = true }]
"#;

/// A secret, which an admin has to know.
const SECRET: &str = r#"version = 1
admin_secret = "s"
tables = []
"#;

/// Posts, and a reader, who sees those of its own alone, and no notes.
const POSTS: &str = r#"version = 1
[[tables]]
name = "post"
key = ["id"]
columns = [{ name = "id", type = "int" }, { name = "author_id", type = "int", nullable = true },
  { name = "title", type = "text" }, { name = "note", type = "text", nullable = true }]
select = [{ role = "reader", columns = ["id", "author_id", "title"],
  filter = '{"author_id":{"_eq":"X-Hasura-User-Id"}}' }]
"#;

const INIT: &str = r#"{"type":"connection_init"}"#;

const INIT_READER: &str =
    r#"{"type":"connection_init","payload":{"headers":{"x-hasura-role":"reader","x-hasura-user-id":"1"}}}"#;

const INIT_NOBODY: &str =
    r#"{"type":"connection_init","payload":{"headers":{"x-hasura-role":"reader"}}}"#;

const INIT_WRONG: &str =
    r#"{"type":"connection_init","payload":{"headers":{"x-hasura-admin-secret":"t"}}}"#;

const INIT_RIGHT: &str =
    r#"{"type":"connection_init","payload":{"headers":{"x-hasura-admin-secret":"s"}}}"#;

const SUBSCRIBE: &str =
    r#"{"type":"subscribe","id":"a","payload":{"query":"subscription { user { id name } }"}}"#;

const COMPLETE: &str = r#"{"type":"complete","id":"a"}"#;

const OPERATION_CUT: &str =
    r#"{"type":"subscribe","id":"b","payload":{"query":"subscription { user { id } "}}"#;

const NO_TABLE: &str =
    r#"{"type":"subscribe","id":"c","payload":{"query":"subscription { usr { id } }"}}"#;

const READ_POSTS: &str =
    r#"{"type":"subscribe","id":"p","payload":{"query":"subscription { post { id title } }"}}"#;

const READ_NOTES: &str =
    r#"{"type":"subscribe","id":"h","payload":{"query":"subscription { post { note } }"}}"#;

const PING: &str = r#"{"type":"ping"}"#;

/// Its id has 107 letters a, and then two letters more.
const LONG_ID: &str =
    "{\"type\":\"subscribe\",\"id\":\"aaaaaaaaaaaaaaaaaaaaaaaaaaaaaaaaaaaaaaaaaaaaaaaaaa\
    aaaaaaaaaaaaaaaaaaaaaaaaaaaaaaaaaaaaaaaaaaaaaaaaaaaaaaaaaéz\",\"payload\":{\"query\":\"subscription { user { id } }\"}}";

/// What is done with a hub.
#[derive(Clone, Copy)]
enum Act<'a> {
    Open(u32),
    Say(u32, &'a str),
    Binary(u32),
    Drain(u32),
}

/// A hub of a few events.
fn has_room(hub: &Hub) -> Result<(), NoMemory>
    ensures { OnOk result (hub.now.events < 2 ^ 62) }
{
    if hub.events() < 1000 {
        Ok(())
    } else {
        Err(NoMemory)
    }
}

/// A word, and then a text.
fn line(out: &mut Vec<u8>, word: &[u8], text: &[u8]) -> Result<(), NoMemory> {
    out.extend_from_slice(word)?;
    out.extend_from_slice(text)?;
    out.push(b'\n')?;
    Ok(())
}

fn tell_queued(out: &mut Vec<u8>, queued: &QueuedList) -> Result<(), NoMemory> {
    for said in queued.as_slice() {
        line(out, b"> ", said.text.as_bytes())?;
    }
    Ok(())
}

fn tell_close(alloc: Global, out: &mut Vec<u8>, reason: &CloseReason) -> Result<(), NoMemory> {
    let code = reason.code();
    let word = format!(in alloc; "! {code} ")?;
    line(out, word.as_bytes(), reason.text())
}

fn tell_closed(
    alloc: Global,
    out: &mut Vec<u8>,
    closed: &Option<CloseReason>,
) -> Result<(), NoMemory> {
    match closed {
        Some(reason) => tell_close(alloc, out, reason),
        None => line(out, b"did", b""),
    }
}

fn tell(alloc: Global, out: &mut Vec<u8>, reply: &ConnReply) -> Result<(), NoMemory> {
    match reply {
        ConnReply::Did(effect) => {
            tell_queued(out, &effect.queued)?;
            tell_closed(alloc, out, &effect.closed)
        }
        ConnReply::ConnKnown => line(out, b"known", b""),
        ConnReply::ConnUnknown => line(out, b"unknown", b""),
    }
}

fn open(alloc: Global, hub: &mut Hub, conn: u32) -> Result<(), NoMemory> {
    has_room(hub)?;
    let _reply = hub.connect(alloc, conn)?;
    Ok(())
}

fn say(
    alloc: Global,
    hub: &mut Hub,
    conn: u32,
    text: &str,
    out: &mut Vec<u8>,
) -> Result<(), NoMemory> {
    has_room(hub)?;
    let reply = hub.recv(alloc, conn, text)?;
    tell(alloc, out, &reply)
}

fn say_binary(alloc: Global, hub: &mut Hub, conn: u32, out: &mut Vec<u8>) -> Result<(), NoMemory> {
    has_room(hub)?;
    let reply = hub.binary(alloc, conn);
    tell(alloc, out, &reply)
}

fn drain(alloc: Global, hub: &mut Hub, conn: u32, out: &mut Vec<u8>) -> Result<(), NoMemory> {
    has_room(hub)?;
    match hub.drain_one(conn) {
        DrainReply::ConnUnknown => line(out, b"unknown", b""),
        DrainReply::Sent(text) => line(out, b"sent ", text.as_bytes()),
        DrainReply::Empty => line(out, b"empty", b""),
        DrainReply::Done(reason) => tell_close(alloc, out, &reason),
    }
}

fn act_on(alloc: Global, hub: &mut Hub, act: &Act<'_>, out: &mut Vec<u8>) -> Result<(), NoMemory> {
    match act {
        Act::Open(conn) => open(alloc, hub, *conn),
        Act::Say(conn, text) => say(alloc, hub, *conn, text, out),
        Act::Binary(conn) => say_binary(alloc, hub, *conn, out),
        Act::Drain(conn) => drain(alloc, hub, *conn, out),
    }
}

/// What a hub on this metadata answers to these acts, in lines.
fn told(alloc: Global, metadata: &str, acts: &[Act<'_>]) -> Result<Vec<u8>, NoMemory> {
    let Ok(meta) = Meta::read(alloc, metadata.as_bytes()) else {
        return Err(NoMemory);
    };
    let mut hub = Hub::new(alloc, meta)?;
    let mut out = Vec::new(alloc);
    for act in acts {
        act_on(alloc, &mut hub, act, &mut out)?;
    }
    Ok(out)
}

#[test]
fn an_acknowledged_connection_subscribes_and_is_not_initialised_twice(
    rt: HostRuntime,
) -> Result<(), Fail> {
    let acts = [
        Act::Say(1, INIT),
        Act::Open(1),
        Act::Say(1, INIT),
        Act::Say(1, SUBSCRIBE),
        Act::Say(1, INIT),
        Act::Say(1, PING),
        Act::Drain(1),
        Act::Drain(1),
    ];
    let out = told(rt.alloc(), USERS, &acts)?;
    let expected = r#"unknown
> {"type":"connection_ack"}
did
did
! 4429 Too many initialisation requests
did
sent {"type":"connection_ack"}
! 4429 Too many initialisation requests
"#;
    assert_eq!(rt; out.as_slice(), expected.as_bytes());
    Ok(())
}

#[test]
fn an_id_is_live_until_its_subscription_completes(rt: HostRuntime) -> Result<(), Fail> {
    let acts = [
        Act::Open(1),
        Act::Say(1, INIT),
        Act::Say(1, SUBSCRIBE),
        Act::Say(1, COMPLETE),
        Act::Say(1, COMPLETE),
        Act::Say(1, SUBSCRIBE),
        Act::Say(1, SUBSCRIBE),
    ];
    let out = told(rt.alloc(), USERS, &acts)?;
    let expected = r#"> {"type":"connection_ack"}
did
did
did
did
did
! 4409 Subscriber for a already exists
"#;
    assert_eq!(rt; out.as_slice(), expected.as_bytes());
    Ok(())
}

#[test]
fn a_long_id_is_cut_in_the_reason_of_a_close(rt: HostRuntime) -> Result<(), Fail> {
    let acts = [
        Act::Open(1),
        Act::Say(1, INIT),
        Act::Say(1, LONG_ID),
        Act::Say(1, LONG_ID),
    ];
    let out = told(rt.alloc(), USERS, &acts)?;
    let expected = "> {\"type\":\"connection_ack\"}
did
did
! 4409 Subscriber for aaaaaaaaaaaaaaaaaaaaaaaaaaaaaaaaaaaaaaaaaaaaaaaaaa\
        aaaaaaaaaaaaaaaaaaaaaaaaaaaaaaaaaaaaaaaaaaaaaaaaaaaaaaaaa
";
    assert_eq!(rt; out.as_slice(), expected.as_bytes());
    Ok(())
}

#[test]
fn bad_messages_and_early_subscribes_close(rt: HostRuntime) -> Result<(), Fail> {
    let acts = [
        Act::Open(1),
        Act::Say(1, SUBSCRIBE),
        Act::Open(2),
        Act::Say(2, "hello"),
        Act::Open(3),
        Act::Binary(3),
        Act::Binary(3),
        Act::Binary(4),
    ];
    let out = told(rt.alloc(), USERS, &acts)?;
    let expected = r#"! 4401 Unauthorized
! 4400 Invalid message
! 4400 Invalid message
did
unknown
"#;
    assert_eq!(rt; out.as_slice(), expected.as_bytes());
    Ok(())
}

#[test]
fn a_wrong_secret_is_turned_away(rt: HostRuntime) -> Result<(), Fail> {
    let acts = [
        Act::Open(1),
        Act::Say(1, INIT_WRONG),
        Act::Open(2),
        Act::Say(2, INIT_RIGHT),
        Act::Binary(2),
    ];
    let out = told(rt.alloc(), SECRET, &acts)?;
    let expected = r#"! 4403 Forbidden
> {"type":"connection_ack"}
did
! 4400 Invalid message
"#;
    assert_eq!(rt; out.as_slice(), expected.as_bytes());
    Ok(())
}

#[test]
fn refusals_are_told(rt: HostRuntime) -> Result<(), Fail> {
    let acts = [
        Act::Open(1),
        Act::Say(1, INIT),
        Act::Say(1, OPERATION_CUT),
        Act::Say(1, NO_TABLE),
        Act::Say(1, NO_TABLE),
        Act::Say(1, SUBSCRIBE),
    ];
    let out = told(rt.alloc(), USERS, &acts)?;
    let expected = r#"> {"type":"connection_ack"}
did
> {"type":"error","id":"b","payload":[{"message":"syntax error at byte 27","extensions":{"code":"Syntax"}}]}
did
> {"type":"error","id":"c","payload":[{"message":"no such field: usr","extensions":{"code":"NoField"}}]}
did
> {"type":"error","id":"c","payload":[{"message":"no such field: usr","extensions":{"code":"NoField"}}]}
did
did
"#;
    assert_eq!(rt; out.as_slice(), expected.as_bytes());
    Ok(())
}

#[test]
fn a_role_is_admitted_to_what_it_sees(rt: HostRuntime) -> Result<(), Fail> {
    let acts = [
        Act::Open(1),
        Act::Say(1, INIT_READER),
        Act::Say(1, READ_POSTS),
        Act::Say(1, READ_NOTES),
        Act::Open(2),
        Act::Say(2, INIT_NOBODY),
        Act::Say(2, READ_POSTS),
    ];
    let out = told(rt.alloc(), POSTS, &acts)?;
    let expected = "> {\"type\":\"connection_ack\"}
did
did
> {\"type\":\"error\",\"id\":\"h\",\"payload\":[{\"message\":\"no such field: note\",\"extensions\":{\"code\":\"NoField\"}}]}
did
> {\"type\":\"connection_ack\"}
did
> {\"type\":\"error\",\"id\":\"p\",\"payload\":[{\"message\":\"missing session variable: x-hasura-user-id\",\
        \"extensions\":{\"code\":\"MissingSession\"}}]}
did
";
    assert_eq!(rt; out.as_slice(), expected.as_bytes());
    Ok(())
}

#[test]
fn a_ping_is_answered(rt: HostRuntime) -> Result<(), Fail> {
    let acts = [
        Act::Open(1),
        Act::Say(1, PING),
        Act::Drain(1),
        Act::Drain(1),
    ];
    let out = told(rt.alloc(), USERS, &acts)?;
    let expected = r#"> {"type":"pong"}
did
sent {"type":"pong"}
empty
"#;
    assert_eq!(rt; out.as_slice(), expected.as_bytes());
    Ok(())
}
