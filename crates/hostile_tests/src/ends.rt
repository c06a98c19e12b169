//! Sources and sinks that fail, each at each of its calls; and connections that end while a job is open.
use crate::runs::{SCRIPT, TOLD, answer, status_of, told};
use outside::{MemSink, MemSource};
use scalar_val::NoMemory;
use std::alloc::Global;
use std::test::Fail;

/// The bytes of a piece.
const PIECE: usize = 7;

/// More calls than reading or writing takes.
const MANY: usize = 80;

/// How many bytes come before the read of a number fails.
fn came(read: usize) -> usize {
    SCRIPT
        .len()
        .min(read.saturating_sub(1).saturating_mul(PIECE))
}

/// How many reads there are: those of all pieces, and the one that finds the end.
fn reads() -> usize {
    SCRIPT.len().div_ceil(PIECE).saturating_add(1)
}

fn only(alloc: Global, call: usize) -> Result<Vec<u64>, NoMemory> {
    let mut calls = Vec::new(alloc);
    calls.push(call as u64)?;
    Ok(calls)
}

#[test]
fn a_source_that_fails_at_any_read_is_told(rt: HostRuntime) -> Result<(), Fail> {
    let alloc = rt.alloc();
    let script = SCRIPT.as_bytes();
    for call in 1..=MANY {
        let mut source = MemSource::new(script.to_vec(alloc)?, PIECE, only(alloc, call)?);
        let mut sink = MemSink::new(alloc, Vec::new(alloc));
        let status = status_of(alloc, &mut source, &mut sink)?;
        let Some(before) = script.get(..came(call)) else {
            return Err(Fail::from("no beginning"));
        };
        let wanted = told(alloc, before)?;
        assert_eq!(rt; sink.as_slice(), wanted.as_slice());
        assert_eq!(rt; status == 1, call <= reads());
        assert_eq!(rt; status == 0, call > reads());
    }
    Ok(())
}

/// The transcripts of so many events.
fn told_first(alloc: Global, events: usize) -> Result<Vec<u8>, NoMemory> {
    let mut bytes = Vec::new(alloc);
    for text in TOLD.iter().take(events) {
        bytes.extend_from_slice(text.as_bytes())?;
    }
    Ok(bytes)
}

#[test]
fn a_sink_that_fails_at_any_write_is_told(rt: HostRuntime) -> Result<(), Fail> {
    let alloc = rt.alloc();
    let script = SCRIPT.as_bytes();
    for call in 1..=MANY {
        let mut source = MemSource::new(script.to_vec(alloc)?, PIECE, Vec::new(alloc));
        let mut sink = MemSink::new(alloc, only(alloc, call)?);
        let status = status_of(alloc, &mut source, &mut sink)?;
        let wanted = told_first(alloc, call.saturating_sub(1))?;
        assert_eq!(rt; sink.as_slice(), wanted.as_slice());
        assert_eq!(rt; status == 3, call <= TOLD.len());
        assert_eq!(rt; status == 0, call > TOLD.len());
    }
    Ok(())
}

/// Two connections with one subscription each, and a job of both. The first connection is gone, or closes, before the job
/// is published. Both are written with what is said of the first connection after that.
const ENDED: [(&str, &str); 2] = [
    (
        "gone 1\npublish 1\nreport\n",
        "gone 1\npublished 1 version 0\n> 2 {\"type\":\"next\",\"id\":\"a\",\"payload\":{\"data\":{\"user\":[]}}}\nreport connections 1 live 1 due 0 jobs 0 version 0\n",
    ),
    (
        "recv 1 {\"type\":\"connection_init\"}\npublish 1\nreport\ndrain 1\ndrain 1\n",
        "recv 1\n! 1 4429 \"Too many initialisation requests\"\npublished 1 version 0\n> 2 {\"type\":\"next\",\"id\":\"a\",\"payload\":{\"data\":{\"user\":[]}}}\nreport connections 2 live 1 due 0 jobs 0 version 0\nsent 1 {\"type\":\"connection_ack\"}\ndone 1 4429 \"Too many initialisation requests\"\n",
    ),
];

/// The lines of the second connection, and the taking of a job.
const TAKEN: &str = r#"open 2
recv 2 {"type":"connection_init"}
recv 2 {"type":"subscribe","id":"a","payload":{"query":"subscription { user { id name } }"}}
tick
take
"#;

const TAKEN_TOLD: &str =
    "open 2\nrecv 2\n> 2 {\"type\":\"connection_ack\"}\nrecv 2\ntick 2\njob 1 version 0 cohorts 1 members 2\n";

/// The script up to its poll, and more.
fn script_with(alloc: Global, lines: &str) -> Result<Vec<u8>, NoMemory> {
    let mut script = Vec::new(alloc);
    let front = SCRIPT.strip_suffix("poll\n").unwrap_or(SCRIPT);
    script.extend_from_slice(front.as_bytes())?;
    script.extend_from_slice(TAKEN.as_bytes())?;
    script.extend_from_slice(lines.as_bytes())?;
    Ok(script)
}

/// Its transcript.
fn transcript_with(alloc: Global, lines: &str) -> Result<Vec<u8>, NoMemory> {
    let mut transcript = told_first(alloc, 3)?;
    transcript.extend_from_slice(TAKEN_TOLD.as_bytes())?;
    transcript.extend_from_slice(lines.as_bytes())?;
    Ok(transcript)
}

#[test]
fn a_connection_that_ends_while_a_job_is_open_is_queued_nothing(
    rt: HostRuntime,
) -> Result<(), Fail> {
    let alloc = rt.alloc();
    for (lines, wanted) in ENDED {
        let (status, written) = answer(alloc, script_with(alloc, lines)?)?;
        let wanted = transcript_with(alloc, wanted)?;
        assert_eq!(rt; written.as_slice(), wanted.as_slice());
        assert_eq!(rt; status, 0);
    }
    Ok(())
}
