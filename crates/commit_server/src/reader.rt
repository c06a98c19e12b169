//! Bytes, and the lines that they make.
ghost use Rattle.std.specs.Prelude.{◌≡◌, ◌≢◌, ◌∷◌, [], false};
ghost use Rattle.commit_server.specs.Answers.{IsShort};
ghost use Rattle.commit_server.specs.Commits.{sink_view};
ghost use Rattle.commit_server.specs.Parts.{FedAs, IsRest};

use crate::answer::answer_line;
use crate::end::CommitEnd;
use outside::Sink;
use std::alloc::Global;
use std::sync::Wait;
use subs_engine::{Engine, Pass};

/// The most bytes of a line.
const LIMIT: usize = 1_048_576;

/// Takes one byte. A line end brings the line's answer.
#[tactic(auto, using(crate::proofs::Feeding::feeds_byte, crate::proofs::Feeding::feeds_line, crate::proofs::Feeding::stops_line, crate::proofs::Feeding::stops_long, crate::proofs::Feeding::stops_byte))]
fn take_byte<R: Wait, K: Sink>(
    rt: &R,
    alloc: Global,
    engine: &Engine,
    pass: &mut Pass,
    sink: &mut K,
    line: &mut Vec<u8>,
    byte: u8,
) -> Result<(), CommitEnd>
    requires pass { (pass.old.lock ≡ engine.now) × (pass.old.has_turn ≡ false) }
    requires line { IsRest line.old.items × IsShort line.old.items }
    ensures fed { FedAs pass.old pass.new (sink_view (K.written sink.old) (K.faults sink.old))
        (sink_view (K.written sink.new) (K.faults sink.new)) line.old.items line.new.items (byte ∷ []) result }
    ensures steady { K.never_fails sink.old → K.never_fails sink.new × (result ≢ Err CommitEnd.SinkFault) }
{
    if byte == b'\n' {
        match answer_line(rt, alloc, engine, pass, sink, line) {
            Ok(()) => {}
            Err(end) => return Err(end),
        }
        line.clear();
        return Ok(());
    }
    if line.len() >= LIMIT {
        return Err(CommitEnd::TooLong);
    }
    match line.push(byte) {
        Ok(()) => return Ok(()),
        Err(_) => return Err(CommitEnd::NoMemory),
    }
}

/// Takes the bytes of a piece, and answers each line as its end comes.
#[tactic(auto, using(crate::proofs::Feeding::feeds_nothing))]
pub(crate) fn take_bytes<R: Wait, K: Sink>(
    rt: &R,
    alloc: Global,
    engine: &Engine,
    pass: &mut Pass,
    sink: &mut K,
    line: &mut Vec<u8>,
    piece: &[u8],
) -> Result<(), CommitEnd>
    requires pass { (pass.old.lock ≡ engine.now) × (pass.old.has_turn ≡ false) }
    requires line { IsRest line.old.items × IsShort line.old.items }
    ensures fed { FedAs pass.old pass.new (sink_view (K.written sink.old) (K.faults sink.old))
        (sink_view (K.written sink.new) (K.faults sink.new)) line.old.items line.new.items piece.now result }
    ensures steady { K.never_fails sink.old → K.never_fails sink.new × (result ≢ Err CommitEnd.SinkFault) }
{
    for byte in piece {
        match take_byte(rt, alloc, engine, pass, sink, line, *byte) {
            Ok(()) => {}
            Err(end) => return Err(end),
        }
    }
    Ok(())
}
