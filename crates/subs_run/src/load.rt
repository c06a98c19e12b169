ghost use Rattle.std.specs.Prelude.{◌≡◌, ◌≢◌, ◌≤◌, ◌⊎◌, ℕ, List, Some, IfOk};
ghost use Rattle.outside.specs.Ends.{Rose};
ghost use Rattle.machine.specs.Messages.{Message};
ghost use Rattle.machine.specs.Script.{output};
ghost use Rattle.load_gen.specs.Generated.{generated};
ghost use Rattle.subs_run.specs.Runs.{Reads};
ghost use Rattle.subs_run.specs.Words.{load_line};
ghost use Rattle.subs_run.specs.Written.{WritesAll, WritesFront};

use crate::answer::RunEnd;
use crate::put::{Wrote, write_all};
use crate::script::run_script;
use load_gen::{load_script, summary_line};
use outside::{MemSink, MemSource, Sink};
use scalar_val::{Bytes, NoMemory, Steps};
use std::alloc::Global;
use std::sync::ledger::Ledger;

/// The bytes of a piece of a generated script, at most.
const PIECE: usize = 4096;

/// Runs the script of so many subscribers, and writes the line that sums up its transcript.
pub(crate) fn load<K: Sink, L: Ledger>(
    alloc: Global,
    n: u32,
    sink: &mut K,
    steps: &mut Steps<L>,
) -> u8
    requires some { 1 ≤ n }
    requires few { n ≤ 1000 }
    ensures statuses { (result ≡ 0) ⊎ ((result ≡ 3) ⊎ (result ≡ 4)) }
    ensures written { result ≡ 0 → (meant : List ℕ → Message) → Reads meant (generated n) →
        WritesAll (K.written sink.old) (K.written sink.new) (load_line meant n) }
    ensures front { (meant : List ℕ → Message) → Reads meant (generated n) →
        WritesFront (K.written sink.old) (K.written sink.new) (load_line meant n) }
    ensures failed { result ≡ 3 → Rose (K.faults sink.old) (K.faults sink.new) }
    ensures steady { K.never_fails sink.old → result ≢ 3 }
{
    match summed_up(alloc, n, steps) {
        Ok(line) => write_line(sink, line.as_slice()),
        Err(NoMemory) => 4,
    }
}

fn write_line<K: Sink>(sink: &mut K, line: &[u8]) -> u8
    ensures statuses { (result ≡ 0) ⊎ ((result ≡ 3) ⊎ (result ≡ 4)) }
    ensures written { result ≡ 0 → WritesAll (K.written sink.old) (K.written sink.new) line.now }
    ensures front { WritesFront (K.written sink.old) (K.written sink.new) line.now }
    ensures failed { result ≡ 3 → Rose (K.faults sink.old) (K.faults sink.new) }
    ensures steady { K.never_fails sink.old → result ≢ 3 }
{
    match write_all(sink, line) {
        Wrote::Done => 0,
        Wrote::Failed => 3,
        Wrote::NoMemory => 4,
    }
}

/// The line that sums up a run of the script of so many subscribers.
fn summed_up<L: Ledger>(alloc: Global, n: u32, steps: &mut Steps<L>) -> Result<Bytes, NoMemory>
    requires some { 1 ≤ n }
    requires few { n ≤ 1000 }
    ensures { IfOk result (λ line. (meant : List ℕ → Message) → Reads meant (generated n) → line ≡ load_line meant n) }
{
    let script = load_script(alloc, n)?;
    let sink = transcript(alloc, script, steps)?;
    summary_line(alloc, n, sink.as_slice())
}

/// A sink in memory to which a script's whole transcript was written. Neither of the two ends ever fails.
fn transcript<L: Ledger>(
    alloc: Global,
    script: Bytes,
    steps: &mut Steps<L>,
) -> Result<MemSink, NoMemory>
    ensures { IfOk result (λ sink. (meant : List ℕ → Message) → Reads meant script →
        ⟦<MemSink as Sink>⟧.written sink ≡ Some (output meant script)) }
{
    let mut source = MemSource::new(script.into_vec(), PIECE, Vec::new(alloc));
    let mut sink = MemSink::new(alloc, Vec::new(alloc));
    match run_script(alloc, &mut source, &mut sink, steps) {
        RunEnd::Done => Ok(sink),
        RunEnd::ScriptFault { .. } => Ok(sink),
        RunEnd::SourceFault => unreachable!(),
        RunEnd::SinkFault => unreachable!(),
        RunEnd::NoMemory => Err(NoMemory),
    }
}
