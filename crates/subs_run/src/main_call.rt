ghost use Rattle.std.specs.Prelude.{◌≡◌, ◌≢◌, ◌≤◌, ◌⊎◌, ◌++◌, true, false, ℕ, List, Some, None, map, string_bytes};
ghost use Rattle.outside.specs.Ends.{Rose};
ghost use Rattle.load_gen.specs.Generated.{generated};
ghost use Rattle.machine.specs.Messages.{Message};
ghost use Rattle.machine.specs.Script.{outcome, output};
ghost use Rattle.machine.specs.declared.script.ScriptReason.{ScriptReason};
ghost use Rattle.subs_run.specs.Runs.{Reads, HasRead, ReadWhole, WroteWholeLines, WroteFront};
ghost use Rattle.subs_run.specs.Words.{is_run, is_command, load_count, load_line, usage_line};
ghost use Rattle.subs_run.specs.Written.{WritesAll, WritesFront};

use crate::answer::RunEnd;
use crate::load::load;
use crate::put::{Wrote, write_all};
use crate::script::run_script;
use crate::words::{is_run, load_count};
use outside::{Sink, Source};
use scalar_val::Steps;
use std::alloc::Global;
use std::sync::ledger::Ledger;

/// Does what the words of the command line ask for, and answers the exit status. The word `run` alone runs the script
/// that the source gives. The word `load` and a number from 1 to 1,000 in decimal without leading zeros run the script
/// that is generated for so many subscribers, and write one line that sums up its transcript; nothing is read. There is
/// no other command.
///
/// | status | when |
/// |---|---|
/// | 0 | the whole script was read and its transcript written; or the line of `load` was written |
/// | 1 | the source failed; the transcript of the lines that were whole was written |
/// | 2 | the script is at fault; its transcript up to there and the fault's line were written |
/// | 3 | the sink failed; a front of what else would be written was written |
/// | 4 | memory was refused; a front of what else would be written was written |
/// | 5 | the words are no command, and the usage line was written; nothing was read |
pub fn run_main<S: Source, K: Sink, L: Ledger>(
    alloc: Global,
    words: &[String],
    source: &mut S,
    sink: &mut K,
    steps: &mut Steps<L>,
) -> u8
    ensures statuses { result ≤ 5 }

    // `run`, 0 and 2: the whole output was written.
    ensures done { is_run (map string_bytes words.now) ≡ true → result ≡ 0 → (all : List ℕ) →
        S.left source.old ≡ Some all → ReadWhole all (S.left source.new) }
    ensures fault { result ≡ 2 → (all : List ℕ) → S.left source.old ≡ Some all → (line : ℕ)
        × ((reason : ScriptReason) × ((meant : List ℕ → Message) → Reads meant all →
        (outcome meant all).fault ≡ Some (line, reason))) }
    ensures whole { is_run (map string_bytes words.now) ≡ true → (result ≡ 0) ⊎ (result ≡ 2) → (all w : List ℕ) →
        S.left source.old ≡ Some all → K.written sink.old ≡ Some w → (meant : List ℕ → Message) → Reads meant all →
        K.written sink.new ≡ Some (w ++ output meant all) }

    // 1: the source failed. What was written is the transcript of the lines that were whole, none of them at fault.
    ensures source_fault { result ≡ 1 → Rose (S.faults source.old) (S.faults source.new) }
    ensures source_lines { result ≡ 1 → (all w : List ℕ) → S.left source.old ≡ Some all → K.written sink.old ≡ Some w →
        WroteWholeLines all w (S.left source.new) (K.written sink.new) }

    // 3: the sink failed. What was written is a front of what 0, 2 or 5 would write, as for want of memory.
    ensures sink_fault { result ≡ 3 → Rose (K.faults sink.old) (K.faults sink.new) }
    ensures front { is_run (map string_bytes words.now) ≡ true → (result ≡ 3) ⊎ (result ≡ 4) → (all w : List ℕ) →
        S.left source.old ≡ Some all → K.written sink.old ≡ Some w → (meant : List ℕ → Message) → Reads meant all →
        WroteFront (output meant all) w (K.written sink.new) }

    // `load`: 0 where the line that sums up the run was written, and else a front of it.
    ensures load_statuses { (n : ℕ) → load_count (map string_bytes words.now) ≡ Some n →
        (result ≡ 0) ⊎ ((result ≡ 3) ⊎ (result ≡ 4)) }
    ensures load_written { (n : ℕ) → load_count (map string_bytes words.now) ≡ Some n → result ≡ 0 →
        (meant : List ℕ → Message) → Reads meant (generated n) → (w : List ℕ) → K.written sink.old ≡ Some w →
        K.written sink.new ≡ Some (w ++ load_line meant n) }
    ensures load_front { (n : ℕ) → load_count (map string_bytes words.now) ≡ Some n → (meant : List ℕ → Message) →
        Reads meant (generated n) → (w : List ℕ) → K.written sink.old ≡ Some w →
        WroteFront (load_line meant n) w (K.written sink.new) }

    // 5: the words are no command. Only `run` reads.
    ensures commands { is_command (map string_bytes words.now) ≡ true → result ≢ 5 }
    ensures usage { is_command (map string_bytes words.now) ≡ false → (result ≡ 5) ⊎ ((result ≡ 3) ⊎ (result ≡ 4)) }
    ensures usage_written { result ≡ 5 → (w : List ℕ) → K.written sink.old ≡ Some w →
        K.written sink.new ≡ Some (w ++ usage_line) }
    ensures usage_front { is_command (map string_bytes words.now) ≡ false → (w : List ℕ) →
        K.written sink.old ≡ Some w → WroteFront usage_line w (K.written sink.new) }
    ensures unread { is_run (map string_bytes words.now) ≡ false → source.new ≡ source.old }

    // No more than one byte past the limit is read.
    ensures reads { (all : List ℕ) → S.left source.old ≡ Some all → HasRead all (S.left source.new) }

    // A source that tells that it never fails brings no 1, whatever the sink does, and a sink that does brings no 3,
    // whatever the source does. Where neither fails, a script without a fault is run whole.
    ensures source_steady { S.never_fails source.old → result ≢ 1 }
    ensures sink_steady { K.never_fails sink.old → result ≢ 3 }
    ensures complete { S.never_fails source.old → K.never_fails sink.old → (result ≢ 1) × (result ≢ 3) }
    ensures answered { S.never_fails source.old → K.never_fails sink.old → is_run (map string_bytes words.now) ≡ true →
        (all : List ℕ) → S.left source.old ≡ Some all → (meant : List ℕ → Message) → Reads meant all →
        (outcome meant all).fault ≡ None → (result ≡ 0) ⊎ (result ≡ 4) }
{
    if !is_run(words) {
        return run_other(alloc, words, sink, steps);
    }
    match run_script(alloc, source, sink, steps) {
        RunEnd::Done => 0,
        RunEnd::SourceFault => 1,
        RunEnd::ScriptFault { .. } => 2,
        RunEnd::SinkFault => 3,
        RunEnd::NoMemory => 4,
    }
}

/// What other words ask for.
fn run_other<K: Sink, L: Ledger>(
    alloc: Global,
    words: &[String],
    sink: &mut K,
    steps: &mut Steps<L>,
) -> u8
    ensures statuses { (result ≡ 0) ⊎ ((result ≡ 5) ⊎ ((result ≡ 3) ⊎ (result ≡ 4))) }
    ensures load_statuses { (n : ℕ) → load_count (map string_bytes words.now) ≡ Some n →
        (result ≡ 0) ⊎ ((result ≡ 3) ⊎ (result ≡ 4)) }
    ensures load_written { (n : ℕ) → load_count (map string_bytes words.now) ≡ Some n → result ≡ 0 →
        (meant : List ℕ → Message) → Reads meant (generated n) →
        WritesAll (K.written sink.old) (K.written sink.new) (load_line meant n) }
    ensures load_front { (n : ℕ) → load_count (map string_bytes words.now) ≡ Some n → (meant : List ℕ → Message) →
        Reads meant (generated n) → WritesFront (K.written sink.old) (K.written sink.new) (load_line meant n) }
    ensures usage { load_count (map string_bytes words.now) ≡ None → (result ≡ 5) ⊎ ((result ≡ 3) ⊎ (result ≡ 4)) }
    ensures usage_written { result ≡ 5 → WritesAll (K.written sink.old) (K.written sink.new) usage_line }
    ensures usage_front { load_count (map string_bytes words.now) ≡ None →
        WritesFront (K.written sink.old) (K.written sink.new) usage_line }
    ensures failed { result ≡ 3 → Rose (K.faults sink.old) (K.faults sink.new) }
    ensures steady { K.never_fails sink.old → result ≢ 3 }
{
    match load_count(words) {
        Some(n) => load(alloc, n, sink, steps),
        None => write_usage(sink),
    }
}

fn write_usage<K: Sink>(sink: &mut K) -> u8
    ensures statuses { (result ≡ 5) ⊎ ((result ≡ 3) ⊎ (result ≡ 4)) }
    ensures written { result ≡ 5 → WritesAll (K.written sink.old) (K.written sink.new) usage_line }
    ensures front { WritesFront (K.written sink.old) (K.written sink.new) usage_line }
    ensures failed { result ≡ 3 → Rose (K.faults sink.old) (K.faults sink.new) }
    ensures steady { K.never_fails sink.old → result ≢ 3 }
{
    match write_all(sink, b"usage: subs COMMAND [WORDS]\n") {
        Wrote::Done => 5,
        Wrote::Failed => 3,
        Wrote::NoMemory => 4,
    }
}
