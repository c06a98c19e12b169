ghost use Rattle.std.specs.Prelude.{
  ◌≡◌,
  ◌≢◌,
  ◌≤◌,
  ◌<◌,
  ◌+◌,
  ◌++◌,
  ◌∷◌,
  ◌⊎◌,
  [],
  ℕ,
  List,
  Some,
  length,
  None,
  OnOk,
  if◌then◌else◌,
};
ghost use Rattle.outside.specs.Ends.{Rose};
ghost use Rattle.machine.specs.Messages.{Message};
ghost use Rattle.machine.specs.Script.{AllSay, Reading, ended, fault_line, limit, said_by, take_line};
ghost use Rattle.machine.specs.declared.script.ScriptReason.TheVariants.{Cut};
ghost use Rattle.subs_run.specs.Runs.{ran};
ghost use Rattle.subs_run.specs.Pieces.{TakesTo, ClosesAs};
ghost use Rattle.subs_run.specs.Progress.{HasStand, StandsAt};
ghost use Rattle.subs_run.specs.Standing.{AreRead, Counts, FedAll, FedAs, HasRoom, HasRun, Matches};

use crate::answer::{RunEnd, ScriptReason};
use crate::line_result::LineResult;
use crate::progress::{Progress, advance};
use crate::put::{Wrote, write_all};
use outside::Sink;
use scalar_val::Steps;
use script_text::write_fault;
use std::alloc::Global;
use std::sync::ledger::Ledger;

/// A script between two bytes.
#[derive(Drop)]
pub(crate) struct Reader {
    pub progress: Progress,
    /// The line whose end hasn't come yet.
    pub line: Vec<u8>,
    /// How many lines were run.
    pub lines_read: u64,
    /// The transcript of the last line.
    pub out: Vec<u8>,
}

/// How the taking of bytes ended.
#[derive(Clone, Copy)]
pub(crate) enum Fed {
    Done,
    Faulty(ScriptReason),
    SinkFailed,
    NoMemory,
}

/// What became of a piece: so many bytes were read, or the run ends.
#[derive(Clone, Copy)]
pub(crate) enum PieceOutcome {
    Read(usize),
    Ended(RunEnd),
}

impl Reader {
    /// Before the first byte.
    pub(crate) fn new(alloc: Global) -> Reader
        ensures { HasRun result [] }
    {
        Reader {
            progress: Progress::Heading(Vec::new(alloc)),
            line: Vec::new(alloc),
            lines_read: 0,
            out: Vec::new(alloc),
        }
    }

    /// Takes the line, whose end came, and leaves its transcript in `out`.
    fn take_line<L: Ledger>(&mut self, alloc: Global, steps: &mut Steps<L>) -> LineResult
        requires stands { HasStand self.old.progress self.old.lines_read }
        requires few { self.old.lines_read < limit }
        ensures counts { Counts result self.old.lines_read self.new }
        ensures went { (meant : List ℕ → Message) (reading : Reading) → StandsAt self.old.progress reading →
            AllSay meant (said_by reading self.old.line.items) →
            Matches result (take_line meant reading self.old.line.items) self.new }
    {
        self.out.clear();
        match advance(&mut self.progress, alloc, &self.line, &mut self.out, steps) {
            LineResult::Went => {
                self.line.clear();
                self.lines_read += 1;
                LineResult::Went
            }
            other => other,
        }
    }

    /// Takes one byte of the script. A line end brings the line's transcript.
    fn step<K: Sink, L: Ledger>(
        &mut self,
        alloc: Global,
        sink: &mut K,
        byte: u8,
        steps: &mut Steps<L>,
    ) -> Fed
        requires { HasRoom self.old 1 }
        ensures fed { (seen : List ℕ) → HasRun self.old seen → FedAs result self.new (seen ++ byte ∷ []) }
        ensures all { (meant : List ℕ → Message) (seen : List ℕ) → HasRun self.old seen →
            AreRead meant (seen ++ byte ∷ []) → FedAll result (K.written sink.old) (K.written sink.new)
            (ran meant seen).text (ran meant (seen ++ byte ∷ [])).text }
        ensures later { K.faults sink.old ≤ K.faults sink.new }
        ensures failed { result ≡ Fed.SinkFailed → Rose (K.faults sink.old) (K.faults sink.new) }
        ensures steady { K.never_fails sink.old → K.never_fails sink.new × (result ≢ Fed.SinkFailed) }
    {
        if byte != b'\n' {
            return match self.line.push(byte) {
                Ok(()) => Fed::Done,
                Err(_) => Fed::NoMemory,
            };
        }
        match self.take_line(alloc, steps) {
            LineResult::Went => {}
            LineResult::Faulty(reason) => return Fed::Faulty(reason),
            LineResult::NoMemory => return Fed::NoMemory,
        }
        match write_all(sink, &self.out) {
            Wrote::Done => Fed::Done,
            Wrote::Failed => Fed::SinkFailed,
            Wrote::NoMemory => Fed::NoMemory,
        }
    }

    /// Takes a piece of the script, and writes the transcript of each line as its end comes.
    fn feed<K: Sink, L: Ledger>(
        &mut self,
        alloc: Global,
        sink: &mut K,
        piece: &[u8],
        steps: &mut Steps<L>,
    ) -> Fed
        requires { HasRoom self.old (length piece.now) }
        ensures fed { (seen : List ℕ) → HasRun self.old seen → FedAs result self.new (seen ++ piece.now) }
        ensures all { (meant : List ℕ → Message) (seen : List ℕ) → HasRun self.old seen →
            AreRead meant (seen ++ piece.now) → FedAll result (K.written sink.old) (K.written sink.new)
            (ran meant seen).text (ran meant (seen ++ piece.now)).text }
        ensures later { K.faults sink.old ≤ K.faults sink.new }
        ensures failed { result ≡ Fed.SinkFailed → Rose (K.faults sink.old) (K.faults sink.new) }
        ensures steady { K.never_fails sink.old → K.never_fails sink.new × (result ≢ Fed.SinkFailed) }
    {
        for byte in piece {
            match self.step(alloc, sink, *byte, steps) {
                Fed::Done => {}
                fed => return fed,
            }
        }
        Fed::Done
    }

    /// Takes a piece of the script. Where a line is at fault, its fault is written.
    pub(crate) fn take<K: Sink, L: Ledger>(
        &mut self,
        alloc: Global,
        sink: &mut K,
        piece: &[u8],
        steps: &mut Steps<L>,
    ) -> PieceOutcome
        requires { HasRoom self.old (length piece.now) }
        ensures takes { (seen : List ℕ) → HasRun self.old seen → length seen + length piece.now ≤ limit →
            TakesTo result self.new (K.written sink.old) (K.written sink.new) seen piece.now }
        ensures later { K.faults sink.old ≤ K.faults sink.new }
        ensures failed { result ≡ PieceOutcome.Ended RunEnd.SinkFault → Rose (K.faults sink.old) (K.faults sink.new) }
        ensures steady { K.never_fails sink.old → K.never_fails sink.new
            × (result ≢ PieceOutcome.Ended RunEnd.SinkFault) }
    {
        match self.feed(alloc, sink, piece, steps) {
            Fed::Done => PieceOutcome::Read(piece.len()),
            Fed::Faulty(reason) => PieceOutcome::Ended(self.fault(sink, reason)),
            Fed::SinkFailed => PieceOutcome::Ended(RunEnd::SinkFault),
            Fed::NoMemory => PieceOutcome::Ended(RunEnd::NoMemory),
        }
    }

    /// Writes the fault of the line that was not run.
    pub(crate) fn fault<K: Sink>(&mut self, sink: &mut K, reason: ScriptReason) -> RunEnd
        requires { self.old.lines_read ≤ limit }
        ensures closes { ClosesAs result (K.written sink.old) (K.written sink.new)
            (Some (self.old.lines_read + 1, reason)) }
        ensures later { K.faults sink.old ≤ K.faults sink.new }
        ensures failed { result ≡ RunEnd.SinkFault → Rose (K.faults sink.old) (K.faults sink.new) }
        ensures steady { K.never_fails sink.old → K.never_fails sink.new × (result ≢ RunEnd.SinkFault) }
    {
        let line = self.lines_read + 1;
        self.out.clear();
        if write_fault(&mut self.out, line, reason).is_err() {
            return RunEnd::NoMemory;
        }
        match write_all(sink, self.out.as_slice()) {
            Wrote::Done => RunEnd::ScriptFault { line, reason },
            Wrote::Failed => RunEnd::SinkFault,
            Wrote::NoMemory => RunEnd::NoMemory,
        }
    }

    /// Whether the script may not end here: within a line, or within its metadata.
    fn is_cut(&self) -> bool
        ensures { (reading : Reading) → StandsAt self.now.progress reading →
            ended (self.now.lines_read + 1) self.now.line.items reading
            ≡ (if result then Some (self.now.lines_read + 1, Cut) else None) }
    {
        match &self.progress {
            Progress::Heading(_) => true,
            Progress::Running(_) => !self.line.is_empty(),
        }
    }

    /// The script ends here.
    pub(crate) fn finish<K: Sink>(&mut self, sink: &mut K) -> RunEnd
        requires { self.old.lines_read ≤ limit }
        ensures closes { (reading : Reading) → StandsAt self.old.progress reading →
            ClosesAs result (K.written sink.old) (K.written sink.new)
            (ended (self.old.lines_read + 1) self.old.line.items reading) }
        ensures sink_alone { result ≢ RunEnd.SourceFault }
        ensures later { K.faults sink.old ≤ K.faults sink.new }
        ensures failed { result ≡ RunEnd.SinkFault → Rose (K.faults sink.old) (K.faults sink.new) }
        ensures steady { K.never_fails sink.old → K.never_fails sink.new × (result ≢ RunEnd.SinkFault) }
    {
        if self.is_cut() {
            return self.fault(sink, ScriptReason::Cut);
        }
        RunEnd::Done
    }
}
