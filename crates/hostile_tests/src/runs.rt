//! What the tests share: scripts that are run over ends in memory, and what is to be written for them.
ghost use Rattle.std.specs.Prelude.{◌≡◌, ◌<◌};

use outside::{MemSink, MemSource};
use scalar_val::{NoMemory, Steps};
use std::alloc::Global;
use std::marker::Brand;
use std::sync::ledger::{Blank, Ledger};
use std::test::Fail;
use subs_run::run_main;

/// One subscription on an empty table.
pub(crate) const SCRIPT: &str = r#"version = 1
[[tables]]
name = "user"
key = ["id"]
columns = [{ name = "id", type = "int" }, { name = "name", type = "text", nullable = true }]
---
open 1
recv 1 {"type":"connection_init"}
recv 1 {"type":"subscribe","id":"a","payload":{"query":"subscription { user { id name } }"}}
poll
"#;

/// The lines of that script that are no events.
const HEADING: usize = 6;

/// What is written for each of its events.
pub(crate) const TOLD: [&str; 4] = [
    "open 1\n",
    "recv 1\n> 1 {\"type\":\"connection_ack\"}\n",
    "recv 1\n",
    "tick 1\njob 1 version 0 cohorts 1 members 1\npublished 1 version 0\n> 1 {\"type\":\"next\",\"id\":\"a\",\"payload\":{\"data\":{\"user\":[]}}}\n",
];

/// Runs a script with a counter of its own.
fn run_words<L: Ledger>(
    alloc: Global,
    blank: Blank,
    words: &[String],
    source: &mut MemSource,
    sink: &mut MemSink,
) -> u8
    requires name { blank.name ≡ L.name }
    requires parts { blank.parts ≡ L.parts }
    requires some { 0 < blank.parts }
{
    let mut steps = Steps::<L>::new(blank);
    run_main(alloc, words, source, sink, &mut steps)
}

/// Runs the script that a source gives.
pub(crate) fn status_of(
    alloc: Global,
    source: &mut MemSource,
    sink: &mut MemSink,
) -> Result<u8, Fail> {
    let mut words = Vec::new(alloc);
    words.push(String::from_str(alloc, "run")?)?;
    Ok(run_words::<Brand>(alloc, Blank::new(1), &words, source, sink))
}

/// The status of a script, and what is written for it.
pub(crate) fn answer(alloc: Global, script: Vec<u8>) -> Result<(u8, Vec<u8>), Fail> {
    let mut source = MemSource::new(script, 4096, Vec::new(alloc));
    let mut sink = MemSink::new(alloc, Vec::new(alloc));
    let status = status_of(alloc, &mut source, &mut sink)?;
    Ok((status, sink.as_slice().to_vec(alloc)?))
}

/// How many lines of a text have their end.
pub(crate) fn whole_lines(text: &[u8]) -> usize {
    text.iter().filter(|byte| **byte == b'\n').count()
}

/// What is written for the whole lines of a beginning of the script.
pub(crate) fn told(alloc: Global, front: &[u8]) -> Result<Vec<u8>, NoMemory> {
    let events = whole_lines(front).saturating_sub(HEADING);
    let mut bytes = Vec::new(alloc);
    for text in TOLD.iter().take(events) {
        bytes.extend_from_slice(text.as_bytes())?;
    }
    Ok(bytes)
}

/// Whether a beginning of the script ends with the line before the first event, or with a later line.
pub(crate) fn ends_well(front: &[u8]) -> bool {
    front.ends_with(b"\n") && whole_lines(front) >= HEADING
}
