use crate::{ClientMsg, ServerMsg, read_client, write_server};
use json_out::Request;
use scalar_val::NoMemory;
use serde_json::Value;
use std::alloc::{AllocError, Global};
use std::test::Fail;

fn value_text(alloc: Global, value: &Value) -> Result<String, NoMemory> {
    Ok(value.to_string(alloc)?)
}

fn add(out: &mut String, word: &str, text: &str) -> Result<(), AllocError> {
    out.push_str(word)?;
    out.push_str(text)
}

fn show_request(alloc: Global, request: &Request, out: &mut String) -> Result<(), NoMemory> {
    add(out, " query ", request.query.as_str())?;
    if let Some(operation) = &request.operation {
        add(out, " operation ", operation.as_str())?;
    }
    let variables = value_text(alloc, &request.variables)?;
    add(out, " variables ", variables.as_str())?;
    Ok(())
}

/// A message in words.
fn show(alloc: Global, msg: &ClientMsg) -> Result<String, NoMemory> {
    let mut out = String::new(alloc);
    match msg {
        ClientMsg::Init(None) => add(&mut out, "init", "")?,
        ClientMsg::Init(Some(payload)) => {
            let text = value_text(alloc, payload)?;
            add(&mut out, "init ", text.as_str())?;
        }
        ClientMsg::Subscribe { id, request } => {
            add(&mut out, "subscribe ", id.as_str())?;
            show_request(alloc, request, &mut out)?;
        }
        ClientMsg::Complete { id } => add(&mut out, "complete ", id.as_str())?,
        ClientMsg::Ping => add(&mut out, "ping", "")?,
        ClientMsg::Pong => add(&mut out, "pong", "")?,
        ClientMsg::Bad => add(&mut out, "bad", "")?,
    }
    Ok(out)
}

fn reads(alloc: Global, text: &str, expected: &str) -> Result<bool, NoMemory> {
    let msg = read_client(alloc, text)?;
    Ok(show(alloc, &msg)?.as_str() == expected)
}

#[test]
fn messages_of_every_type(rt: HostRuntime) -> Result<(), Fail> {
    let cases = [
        ("{\"type\":\"connection_init\"}", "init"),
        ("{\"type\":\"connection_init\",\"payload\":null}", "init"),
        (
            " {\"payload\" : {\"headers\":{\"b\":1,\"a\":[]}},\n\"type\":\"connection_init\"} ",
            "init {\"headers\":{\"a\":[],\"b\":1}}",
        ),
        (
            "{\"type\":\"subscribe\",\"id\":\"a\",\"payload\":{\"query\":\"q\"}}",
            "subscribe a query q variables null",
        ),
        (
            "{\"id\":\"\",\"type\":\"subscribe\",\"payload\":{\"variables\":{\"i\":-0.5},\"operationName\":\"O\",\"query\":\"\\u00e9\",\"extensions\":{\"x\":1}},\"more\":[]}",
            "subscribe  query é operation O variables {\"i\":-0.5}",
        ),
        (
            "{\"type\":\"subscribe\",\"id\":\"a\",\"payload\":{\"query\":\"q\",\"operationName\":null,\"variables\":null,\"extensions\":null}}",
            "subscribe a query q variables null",
        ),
        ("{\"type\":\"complete\",\"id\":\"x\\n\"}", "complete x\n"),
        ("{\"type\":\"ping\"}", "ping"),
        ("{\"type\":\"ping\",\"payload\":{}}", "ping"),
        ("{\"type\":\"pong\",\"payload\":null}", "pong"),
        ("{\"type\":\"bad\",\"type\":\"pong\"}", "pong"),
        (
            "{\"type\":\"complete\",\"id\":7,\"id\":\"b\"}",
            "complete b",
        ),
    ];
    for (text, expected) in cases {
        assert!(rt; reads(rt.alloc(), text, expected)?);
    }
    Ok(())
}

#[test]
fn bad_messages(rt: HostRuntime) -> Result<(), Fail> {
    let cases = [
        "",
        "{",
        "null",
        "[{\"type\":\"ping\"}]",
        "\"ping\"",
        "{}",
        "{\"type\":null}",
        "{\"type\":7}",
        "{\"type\":\"Ping\"}",
        "{\"type\":\"connection_ack\"}",
        "{\"type\":\"ping\"} x",
        "{\"type\":\"pong\",\"type\":\"bad\"}",
        "{\"type\":\"connection_init\",\"payload\":[]}",
        "{\"type\":\"connection_init\",\"payload\":\"\"}",
        "{\"type\":\"ping\",\"payload\":false}",
        "{\"type\":\"pong\",\"payload\":0}",
        "{\"type\":\"complete\"}",
        "{\"type\":\"complete\",\"id\":null}",
        "{\"type\":\"complete\",\"id\":\"b\",\"id\":7}",
        "{\"type\":\"subscribe\",\"payload\":{\"query\":\"q\"}}",
        "{\"type\":\"subscribe\",\"id\":1,\"payload\":{\"query\":\"q\"}}",
        "{\"type\":\"subscribe\",\"id\":\"a\"}",
        "{\"type\":\"subscribe\",\"id\":\"a\",\"payload\":null}",
        "{\"type\":\"subscribe\",\"id\":\"a\",\"payload\":{}}",
        "{\"type\":\"subscribe\",\"id\":\"a\",\"payload\":{\"query\":null}}",
        "{\"type\":\"subscribe\",\"id\":\"a\",\"payload\":{\"query\":\"q\",\"operationName\":{}}}",
        "{\"type\":\"subscribe\",\"id\":\"a\",\"payload\":{\"query\":\"q\",\"variables\":[]}}",
        "{\"type\":\"subscribe\",\"id\":\"a\",\"payload\":{\"query\":\"q\",\"extensions\":\"e\"}}",
    ];
    for text in cases {
        assert!(rt; reads(rt.alloc(), text, "bad")?);
    }
    Ok(())
}

/// A `ping` of `len` bytes.
fn long_ping(alloc: Global, len: usize) -> Result<String, AllocError> {
    let mut text = String::from_str(alloc, "{\"type\":\"ping\"}")?;
    for _ in text.len()..len {
        text.push_str(" ")?;
    }
    Ok(text)
}

#[test]
fn the_longest_message(rt: HostRuntime) -> Result<(), Fail> {
    let alloc = rt.alloc();
    assert!(rt; reads(alloc, long_ping(alloc, 1_048_576)?.as_str(), "ping")?);
    assert!(rt; reads(alloc, long_ping(alloc, 1_048_577)?.as_str(), "bad")?);
    Ok(())
}

fn writes(alloc: Global, msg: &ServerMsg<'_>, expected: &str) -> Result<bool, NoMemory> {
    Ok(write_server(alloc, msg)?.as_bytes() == expected.as_bytes())
}

#[test]
fn messages_of_the_server(rt: HostRuntime) -> Result<(), Fail> {
    let next = ServerMsg::Next {
        id: "a\"\u{1}é",
        payload: b"{\"data\":{\"user\":[]}}",
    };
    let error = ServerMsg::Error {
        id: "a",
        message: "field \"x\"\nnot found",
        code: "validation-failed",
    };
    let cases = [
        (ServerMsg::Ack, "{\"type\":\"connection_ack\"}"),
        (ServerMsg::Pong, "{\"type\":\"pong\"}"),
        (
            next,
            "{\"type\":\"next\",\"id\":\"a\\\"\\u0001é\",\"payload\":{\"data\":{\"user\":[]}}}",
        ),
        (
            error,
            "{\"type\":\"error\",\"id\":\"a\",\"payload\":[{\"message\":\"field \\\"x\\\"\\nnot found\",\"extensions\":{\"code\":\"validation-failed\"}}]}",
        ),
        (
            ServerMsg::Complete { id: "" },
            "{\"type\":\"complete\",\"id\":\"\"}",
        ),
    ];
    for (msg, expected) in &cases {
        assert!(rt; writes(rt.alloc(), msg, expected)?);
    }
    Ok(())
}
