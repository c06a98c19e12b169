ghost use Rattle.std.specs.Prelude.{◌≡◌, ◌≢◌, ◌≤◌, ◌<◌, ◌-◌, ◌⊎◌, ◌++◌, [], ℕ, List, Option, Some, None, length};
ghost use Rattle.outside.specs.Ends.{Rose, Takes, HasCause};
ghost use Rattle.machine.specs.Messages.{Message};
ghost use Rattle.machine.specs.Script.{limit, outcome, output};
ghost use Rattle.subs_run.specs.Runs.{
  Reads,
  EndsAs,
  IsToldWhole,
  HasRead,
  ReadWhole,
  WroteWholeLines,
  WroteFront,
  AtMost,
};
ghost use Rattle.subs_run.specs.Standing.{HasRoom};
ghost use Rattle.subs_run.specs.Pieces.{Ends, ends, IsAt, LeadsTo, ClosedAs};

use crate::answer::{RunEnd, ScriptReason};
use crate::reader::{PieceOutcome, Reader};
use outside::{Got, Sink, Source};
use scalar_val::Steps;
use std::alloc::Global;
use std::sync::ledger::Ledger;

/// The bytes of a piece, at most.
const PIECE: usize = 4096;

/// The bytes of a script, at most.
const LIMIT: usize = 67_108_864;

/// Runs a script from its first byte. `meant` gives each text of a client the message that it says.
pub fn run_script<S: Source, K: Sink, L: Ledger>(
    alloc: Global,
    source: &mut S,
    sink: &mut K,
    steps: &mut Steps<L>,
) -> RunEnd
    // Done: the whole input was read, and no line is at fault. ScriptFault: this is the fault.
    ensures done { result ≡ RunEnd.Done → (all : List ℕ) → S.left source.old ≡ Some all →
        ReadWhole all (S.left source.new) }
    ensures fault { (all : List ℕ) → S.left source.old ≡ Some all → (meant : List ℕ → Message) → Reads meant all →
        EndsAs result (outcome meant all).fault }
    ensures whole { IsToldWhole result → (all w : List ℕ) → S.left source.old ≡ Some all → K.written sink.old ≡ Some w →
        (meant : List ℕ → Message) → Reads meant all → K.written sink.new ≡ Some (w ++ output meant all) }

    // The source failed. What was written is the transcript of the lines that were whole, none of them at fault.
    ensures source_fault { result ≡ RunEnd.SourceFault → Rose (S.faults source.old) (S.faults source.new) }
    ensures source_lines { result ≡ RunEnd.SourceFault → (all w : List ℕ) → S.left source.old ≡ Some all →
        K.written sink.old ≡ Some w → WroteWholeLines all w (S.left source.new) (K.written sink.new) }

    // The sink failed. What was written is a front of the output, as for want of memory.
    ensures sink_fault { result ≡ RunEnd.SinkFault → Rose (K.faults sink.old) (K.faults sink.new) }
    ensures front { (result ≡ RunEnd.SinkFault) ⊎ (result ≡ RunEnd.NoMemory) → (all w : List ℕ) →
        S.left source.old ≡ Some all → K.written sink.old ≡ Some w → (meant : List ℕ → Message) → Reads meant all →
        WroteFront (output meant all) w (K.written sink.new) }

    // No more than one byte past the limit is read.
    ensures reads { (all : List ℕ) → S.left source.old ≡ Some all → HasRead all (S.left source.new) }

    // A source that tells that it never fails brings no fault of its own, whatever the sink does, and so does a sink.
    ensures source_steady { S.never_fails source.old → result ≢ RunEnd.SourceFault }
    ensures sink_steady { K.never_fails sink.old → result ≢ RunEnd.SinkFault }
    ensures complete { S.never_fails source.old → K.never_fails sink.old → (result ≢ RunEnd.SourceFault)
        × (result ≢ RunEnd.SinkFault) }

    // Then a script without a fault is run whole.
    ensures answered { S.never_fails source.old → K.never_fails sink.old → (all : List ℕ) →
        S.left source.old ≡ Some all → (meant : List ℕ → Message) → Reads meant all →
        (outcome meant all).fault ≡ None → (result ≡ RunEnd.Done) ⊎ (result ≡ RunEnd.NoMemory) }
{
    let mut reader = Reader::new(alloc);
    let mut buf = [0u8; PIECE];
    run_from(alloc, source, sink, &mut reader, &mut buf, steps)
}

/// Runs a script to its end.
fn run_from<S: Source, K: Sink, L: Ledger>(
    alloc: Global,
    source: &mut S,
    sink: &mut K,
    reader: &mut Reader,
    buf: &mut [u8],
    steps: &mut Steps<L>,
) -> RunEnd
    requires some { 0 < length buf.old }
    requires at { IsAt (ends (S.left source.old) (K.written sink.old)) (ends (S.left source.old) (K.written sink.old))
        reader.old 0 }
    ensures closed { ClosedAs result (ends (S.left source.old) (K.written sink.old))
        (ends (S.left source.new) (K.written sink.new)) }
    ensures source_fault { result ≡ RunEnd.SourceFault → Rose (S.faults source.old) (S.faults source.new) }
    ensures sink_fault { result ≡ RunEnd.SinkFault → Rose (K.faults sink.old) (K.faults sink.new) }
    ensures source_steady { S.never_fails source.old → result ≢ RunEnd.SourceFault }
    ensures sink_steady { K.never_fails sink.old → result ≢ RunEnd.SinkFault }
{
    let mut count = 0;
    while count < LIMIT {
        match run_piece(alloc, source, sink, reader, buf, count, steps) {
            PieceOutcome::Read(got) => count += got,
            PieceOutcome::Ended(end) => return end,
        }
    }
    run_last_piece(source, sink, reader, buf)
}

/// Reads one piece, and takes it.
fn run_piece<S: Source, K: Sink, L: Ledger>(
    alloc: Global,
    source: &mut S,
    sink: &mut K,
    reader: &mut Reader,
    buf: &mut [u8],
    count: usize,
    steps: &mut Steps<L>,
) -> PieceOutcome
    requires some { 0 < length buf.old }
    requires few { count < limit }
    requires room { HasRoom reader.old (limit - count) }
    ensures leads { (start : Ends) → IsAt start (ends (S.left source.old) (K.written sink.old)) reader.old count →
        LeadsTo result start (ends (S.left source.new) (K.written sink.new)) reader.new count }
    ensures source_later { S.faults source.old ≤ S.faults source.new }
    ensures sink_later { K.faults sink.old ≤ K.faults sink.new }
    ensures source_fault { result ≡ PieceOutcome.Ended RunEnd.SourceFault →
        Rose (S.faults source.old) (S.faults source.new) }
    ensures sink_fault { result ≡ PieceOutcome.Ended RunEnd.SinkFault → Rose (K.faults sink.old) (K.faults sink.new) }
    ensures source_steady { S.never_fails source.old → S.never_fails source.new
        × (result ≢ PieceOutcome.Ended RunEnd.SourceFault) }
    ensures sink_steady { K.never_fails sink.old → K.never_fails sink.new
        × (result ≢ PieceOutcome.Ended RunEnd.SinkFault) }
{
    let most = buf.len().min(LIMIT - count);
    match read_piece(source, buf, most) {
        Got::Bytes(got) => reader.take(alloc, sink, &buf[..got], steps),
        Got::End => PieceOutcome::Ended(reader.finish(sink)),
        Got::Failed => PieceOutcome::Ended(RunEnd::SourceFault),
    }
}

/// The script has as many bytes as it may have: it ends here, or it is too long.
fn run_last_piece<S: Source, K: Sink>(
    source: &mut S,
    sink: &mut K,
    reader: &mut Reader,
    buf: &mut [u8],
) -> RunEnd
    requires some { 0 < length buf.old }
    requires room { HasRoom reader.old 0 }
    ensures closed { (start : Ends) → IsAt start (ends (S.left source.old) (K.written sink.old)) reader.old limit →
        ClosedAs result start (ends (S.left source.new) (K.written sink.new)) }
    ensures source_later { S.faults source.old ≤ S.faults source.new }
    ensures source_fault { result ≡ RunEnd.SourceFault → Rose (S.faults source.old) (S.faults source.new) }
    ensures sink_fault { result ≡ RunEnd.SinkFault → Rose (K.faults sink.old) (K.faults sink.new) }
    ensures source_steady { S.never_fails source.old → result ≢ RunEnd.SourceFault }
    ensures sink_steady { K.never_fails sink.old → result ≢ RunEnd.SinkFault }
{
    match read_piece(source, buf, 1) {
        Got::Bytes(_) => reader.fault(sink, ScriptReason::Size),
        Got::End => reader.finish(sink),
        Got::Failed => RunEnd::SourceFault,
    }
}

/// Reads at most so many bytes, to the front of a buffer.
fn read_piece<S: Source>(source: &mut S, buf: &mut [u8], most: usize) -> Got
    requires some { 0 < most }
    requires within { most ≤ length buf.old }
    ensures count { AtMost most result }
    ensures bytes { Takes (S.left source.old) (S.left source.new) result buf.new }
    ensures cause { HasCause (S.faults source.old) (S.faults source.new) result }
    ensures steady { S.never_fails source.old → S.never_fails source.new × (result ≢ Got.Failed) }
{
    source.read(&mut buf[..most])
}
