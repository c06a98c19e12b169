//! Serving a connection to the commit port.
ghost use Rattle.std.specs.Prelude.{◌≡◌, ◌≢◌, ◌<◌, false, length};
ghost use Rattle.commit_server.specs.Answers.{IsShort};
ghost use Rattle.commit_server.specs.Commits.{Commits, sink_view, source_view};
ghost use Rattle.commit_server.specs.Parts.{IsRest, TakesPiece};

use crate::end::CommitEnd;
use crate::reader::take_bytes;
use outside::{Got, Sink, Source};
use std::alloc::Global;
use std::sync::Wait;
use subs_engine::{Engine, Pass};

/// The most bytes of a piece.
const PIECE: usize = 4096;

/// Reads a piece, and answers the lines that it ends.
#[tactic(auto, using(crate::proofs::Serving::takes_bytes))]
fn take_piece<R: Wait, S: Source, K: Sink>(
    rt: &R,
    alloc: Global,
    engine: &Engine,
    pass: &mut Pass,
    source: &mut S,
    sink: &mut K,
    line: &mut Vec<u8>,
    buf: &mut [u8],
) -> Result<(), CommitEnd>
    requires pass { (pass.old.lock ≡ engine.now) × (pass.old.has_turn ≡ false) }
    requires line { IsRest line.old.items × IsShort line.old.items }
    requires some { 0 < length buf.old }
    ensures takes { TakesPiece pass.old pass.new (source_view (S.left source.old) (S.faults source.old))
        (source_view (S.left source.new) (S.faults source.new)) (sink_view (K.written sink.old) (K.faults sink.old))
        (sink_view (K.written sink.new) (K.faults sink.new)) line.old.items line.new.items result }
    ensures source_steady { S.never_fails source.old → S.never_fails source.new × (result ≢ Err CommitEnd.SourceFault) }
    ensures sink_steady { K.never_fails sink.old → K.never_fails sink.new × (result ≢ Err CommitEnd.SinkFault) }
{
    match source.read(buf) {
        Got::Bytes(count) => take_bytes(rt, alloc, engine, pass, sink, line, &buf[..count]),
        Got::End => Err(CommitEnd::Ended),
        Got::Failed => Err(CommitEnd::SourceFault),
    }
}

/// Serves one connection to the commit port, until there is an end.
///
/// It reads lines, each ended by a line feed, of at most 1,048,576 bytes without it. A line that is a transaction is
/// committed, and answered by `commit V` with the new version, or by `refused N REASON` with the number and the reason
/// of the first change at fault. Each other line is answered by `bad`. Bytes without a line end are not taken. The pass
/// has to be one of the engine, without the turn.
///
/// - `Ended`: the source answered that nothing is left.
/// - `SourceFault`, `SinkFault`: one of them failed, and its count of faults rose.
/// - `TooLong`: before another end a line came, or bytes without a line end, that is too long. It isn't taken.
/// - `Spent`: a commit was answered that the turns are spent; the pass has then seen 2^62 entries.
/// - `NoMemory`: memory was refused.
#[tactic(auto, using(crate::proofs::Serving::goes_nothing, crate::proofs::Serving::goes_then))]
pub fn serve_commits<R: Wait, S: Source, K: Sink>(
    rt: &R,
    alloc: Global,
    engine: &Engine,
    pass: &mut Pass,
    source: &mut S,
    sink: &mut K,
) -> CommitEnd
    requires { (pass.old.lock ≡ engine.now) × (pass.old.has_turn ≡ false) }
    ensures commits { Commits pass.old pass.new (source_view (S.left source.old) (S.faults source.old))
        (source_view (S.left source.new) (S.faults source.new)) (sink_view (K.written sink.old) (K.faults sink.old))
        (sink_view (K.written sink.new) (K.faults sink.new)) result }
    ensures source_steady { S.never_fails source.old → S.never_fails source.new × (result ≢ CommitEnd.SourceFault) }
    ensures sink_steady { K.never_fails sink.old → K.never_fails sink.new × (result ≢ CommitEnd.SinkFault) }
{
    let mut line = Vec::new(alloc);
    let mut buf = [0u8; PIECE];
    for _ in rt.forever() {
        match take_piece(rt, alloc, engine, pass, source, sink, &mut line, &mut buf) {
            Ok(()) => {}
            Err(end) => return end,
        }
    }
    unreachable!()
}
