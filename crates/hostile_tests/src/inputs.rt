//! Texts that are made to cost much, each sent on an acknowledged connection, and scripts that are cut off.
use crate::runs::{SCRIPT, answer, ends_well, told, whole_lines};
use scalar_val::NoMemory;
use std::alloc::Global;
use std::test::Fail;

/// Users and their posts.
const HEADING: &str = r#"version = 1
[[tables]]
name = "user"
key = ["id"]
columns = [{ name = "id", type = "int" }, { name = "name", type = "text", nullable = true }]
array = [{ name = "posts", table = "post", from = ["id"], to = ["author_id"] }]
[[tables]]
name = "post"
key = ["id"]
columns = [{ name = "id", type = "int" }, { name = "author_id", type = "int", nullable = true }]
object = [{ name = "author", table = "user", from = ["author_id"], to = ["id"] }]
---
open 1
recv 1 {"type":"connection_init"}
"#;

const ACKNOWLEDGED: &str = "open 1\nrecv 1\n> 1 {\"type\":\"connection_ack\"}\n";

/// A text that a client sends: its front, so many openings, what stands between, as many closings, and its back. And what
/// is written for it after the line `recv 1`.
struct Sent {
    front: &'static str,
    opening: &'static str,
    between: &'static str,
    closing: &'static str,
    times: usize,
    back: &'static str,
    answer: &'static str,
}

const SENT: [Sent; 9] = [
    // A message of 1,048,577 bytes, and one of a byte less.
    Sent {
        front: "{\"type\":\"ping\"}",
        opening: " ",
        between: "",
        closing: "",
        times: 1_048_562,
        back: "",
        answer: "! 1 4400 \"Invalid message\"\n",
    },
    Sent {
        front: "{\"type\":\"ping\"}",
        opening: " ",
        between: "",
        closing: "",
        times: 1_048_561,
        back: "",
        answer: "> 1 {\"type\":\"pong\"}\n",
    },
    // `extensions` of 200 objects in one another.
    Sent {
        front: "{\"type\":\"subscribe\",\"id\":\"a\",\"payload\":{\"query\":\"subscription { user { id } }\",\"extensions\":",
        opening: "{\"a\":",
        between: "{}",
        closing: "}",
        times: 199,
        back: "}}",
        answer: "! 1 4400 \"Invalid message\"\n",
    },
    // A query of 65,537 bytes, and one of a byte less.
    Sent {
        front: "{\"type\":\"subscribe\",\"id\":\"a\",\"payload\":{\"query\":\"subscription { user { id name } }",
        opening: " ",
        between: "",
        closing: "",
        times: 65_504,
        back: "\"}}",
        answer: "> 1 {\"type\":\"error\",\"id\":\"a\",\"payload\":[{\"message\":\"syntax error at byte 65536\",\"extensions\":{\"code\":\"Syntax\"}}]}\n",
    },
    Sent {
        front: "{\"type\":\"subscribe\",\"id\":\"a\",\"payload\":{\"query\":\"subscription { user { id name } }",
        opening: " ",
        between: "",
        closing: "",
        times: 65_503,
        back: "\"}}",
        answer: "",
    },
    // 63 lists that nobody closes.
    Sent {
        front: "{\"type\":\"subscribe\",\"id\":\"a\",\"payload\":{\"query\":\"subscription { user(where: ",
        opening: "[",
        between: "",
        closing: "",
        times: 63,
        back: "\"}}",
        answer: "> 1 {\"type\":\"error\",\"id\":\"a\",\"payload\":[{\"message\":\"syntax error at byte 89\",\"extensions\":{\"code\":\"Syntax\"}}]}\n",
    },
    // Fields at 13 levels, and at 12.
    Sent {
        front: "{\"type\":\"subscribe\",\"id\":\"a\",\"payload\":{\"query\":\"subscription { user { posts { author { posts { author { posts { author { posts { author { posts { author { posts { id } } } } } } } } } } } } }",
        opening: "",
        between: "",
        closing: "",
        times: 0,
        back: "\"}}",
        answer: "> 1 {\"type\":\"error\",\"id\":\"a\",\"payload\":[{\"message\":\"selection too large\",\"extensions\":{\"code\":\"TooLarge\"}}]}\n",
    },
    Sent {
        front: "{\"type\":\"subscribe\",\"id\":\"a\",\"payload\":{\"query\":\"subscription { user { posts { author { posts { author { posts { author { posts { author { posts { author { id } } } } } } } } } } } }",
        opening: "",
        between: "",
        closing: "",
        times: 0,
        back: "\"}}",
        answer: "",
    },
    // Eight fragments, each of which spreads the next one three times.
    Sent {
        front: "{\"type\":\"subscribe\",\"id\":\"a\",\"payload\":{\"query\":\"subscription { user { ...F1 } } fragment F1 on user { x: posts { ...F2 } y: posts { ...F2 } z: posts { ...F2 } } fragment F2 on user { x: posts { ...F3 } y: posts { ...F3 } z: posts { ...F3 } } fragment F3 on user { x: posts { ...F4 } y: posts { ...F4 } z: posts { ...F4 } } fragment F4 on user { x: posts { ...F5 } y: posts { ...F5 } z: posts { ...F5 } } fragment F5 on user { x: posts { ...F6 } y: posts { ...F6 } z: posts { ...F6 } } fragment F6 on user { x: posts { ...F7 } y: posts { ...F7 } z: posts { ...F7 } } fragment F7 on user { x: posts { ...F8 } y: posts { ...F8 } z: posts { ...F8 } } fragment F8 on user { x: posts { ...F9 } y: posts { ...F9 } z: posts { ...F9 } } fragment F9 on user { id }",
        opening: "",
        between: "",
        closing: "",
        times: 0,
        back: "\"}}",
        answer: "> 1 {\"type\":\"error\",\"id\":\"a\",\"payload\":[{\"message\":\"selection too large\",\"extensions\":{\"code\":\"TooLarge\"}}]}\n",
    },
];

fn repeat(bytes: &mut Vec<u8>, piece: &str, times: usize) -> Result<(), NoMemory> {
    for _ in 0..times {
        bytes.extend_from_slice(piece.as_bytes())?;
    }
    Ok(())
}

/// The script that sends a text on an acknowledged connection.
fn script_of(alloc: Global, sent: &Sent) -> Result<Vec<u8>, NoMemory> {
    let mut bytes = HEADING.as_bytes().to_vec(alloc)?;
    bytes.extend_from_slice(b"recv 1 ")?;
    bytes.extend_from_slice(sent.front.as_bytes())?;
    repeat(&mut bytes, sent.opening, sent.times)?;
    bytes.extend_from_slice(sent.between.as_bytes())?;
    repeat(&mut bytes, sent.closing, sent.times)?;
    bytes.extend_from_slice(sent.back.as_bytes())?;
    bytes.push(b'\n')?;
    Ok(bytes)
}

/// What is written for it.
fn transcript_of(alloc: Global, sent: &Sent) -> Result<Vec<u8>, NoMemory> {
    let mut bytes = ACKNOWLEDGED.as_bytes().to_vec(alloc)?;
    bytes.extend_from_slice(b"recv 1\n")?;
    bytes.extend_from_slice(sent.answer.as_bytes())?;
    Ok(bytes)
}

#[test]
fn texts_that_are_made_to_cost_much_are_answered(rt: HostRuntime) -> Result<(), Fail> {
    let alloc = rt.alloc();
    for sent in &SENT {
        let (status, written) = answer(alloc, script_of(alloc, sent)?)?;
        let wanted = transcript_of(alloc, sent)?;
        assert_eq!(rt; written.as_slice(), wanted.as_slice());
        assert_eq!(rt; status, 0);
    }
    Ok(())
}

/// What is written for a beginning of the script.
fn written_for(alloc: Global, front: &[u8]) -> Result<Vec<u8>, NoMemory> {
    let mut bytes = told(alloc, front)?;
    if !ends_well(front) {
        let line = whole_lines(front).saturating_add(1);
        let fault = format!(in alloc; "fault {line} cut\n")?;
        bytes.extend_from_slice(fault.as_bytes())?;
    }
    Ok(bytes)
}

#[test]
fn each_beginning_of_a_script_is_told_as_far_as_it_goes(rt: HostRuntime) -> Result<(), Fail> {
    let alloc = rt.alloc();
    let script = SCRIPT.as_bytes();
    for end in 0..=script.len() {
        let front = &script[..end];
        let (status, written) = answer(alloc, front.to_vec(alloc)?)?;
        let wanted = written_for(alloc, front)?;
        assert_eq!(rt; written.as_slice(), wanted.as_slice());
        assert_eq!(rt; status == 0, ends_well(front));
        assert_eq!(rt; status == 2, !ends_well(front));
    }
    Ok(())
}
