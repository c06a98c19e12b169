ghost use Rattle.std.specs.Prelude.{◌≡◌, ◌<◌, ◌+◌, ◌++◌, ◌∷◌, [], ℕ, List, Err, IfOk, IfErr, codes};
ghost use Rattle.std.specs.Str.{bytes_eq};
ghost use Rattle.role_model.specs.declared.metadata.MetaFault.{MetaFault};
ghost use Rattle.role_model.specs.MetadataMeaning.{metadata_of};
ghost use Rattle.machine.specs.Messages.{Message};
ghost use Rattle.machine.specs.Script.{AllSay, Reading, limit, said_by, take_line};
ghost use Rattle.subs_run.specs.Progress.{Advances, Begins, HasStand, IfWent, IsNew, OnWent, StandsAt};

use crate::event::run_line;
use crate::line_result::LineResult;
use crate::runner::Runner;
use hub::Hub;
use role_schema::{Meta, MetaReadFault};
use scalar_val::{NoMemory, Steps};
use script_text::ScriptReason;
use std::alloc::Global;
use std::sync::ledger::Ledger;

/// How far a script is: within its metadata, whose lines are kept with their line ends, or behind it.
#[derive(Drop)]
pub(crate) enum Progress {
    Heading(Vec<u8>),
    Running(Runner),
}

/// Takes one line, and appends its transcript.
pub(crate) fn advance<L: Ledger>(
    progress: &mut Progress,
    alloc: Global,
    line: &[u8],
    out: &mut Vec<u8>,
    steps: &mut Steps<L>,
) -> LineResult
    requires { (lines_read : ℕ) × (lines_read < limit) × HasStand progress.old lines_read }
    ensures advances { (meant : List ℕ → Message) (reading : Reading) → StandsAt progress.old reading →
        AllSay meant (said_by reading line.now) →
        Advances result (take_line meant reading line.now) progress.new out.old.items out.new.items }
    ensures stays { (lines_read : ℕ) → lines_read < limit → HasStand progress.old lines_read →
        OnWent result (HasStand progress.new (lines_read + 1)) }
{
    match progress {
        Progress::Running(runner) => run_line(runner, alloc, line, out, steps),
        Progress::Heading(metadata) => {
            if !ends_metadata(line) {
                return keep_line(metadata, line);
            }
            match begin(alloc, metadata) {
                Ok(hub) => {
                    *progress = Progress::Running(Runner {
                        hub,
                        jobs: Vec::new(alloc),
                    });
                    LineResult::Went
                }
                Err(MetaReadFault::Refused(fault)) => {
                    LineResult::Faulty(ScriptReason::Metadata(fault))
                }
                Err(MetaReadFault::NoMemory) => LineResult::NoMemory,
            }
        }
    }
}

/// Whether the line is the one behind the metadata.
fn ends_metadata(line: &[u8]) -> bool
    ensures { result ≡ bytes_eq line.now (codes "---") }
{
    line == b"---".as_slice()
}

/// The hub at the metadata's end, or the metadata's first fault.
fn begin(alloc: Global, metadata: &[u8]) -> Result<Hub, MetaReadFault>
    ensures began { IfOk result (λ hub. Begins (metadata_of metadata.now) hub) }
    ensures refused { (fault : MetaFault) → result ≡ Err (MetaReadFault.Refused fault) →
        metadata_of metadata.now ≡ Err fault }
{
    match Meta::read(alloc, metadata) {
        Ok(meta) => begin_with(alloc, meta),
        Err(fault) => Err(fault),
    }
}

/// The hub of metadata that was read.
fn begin_with(alloc: Global, meta: Meta) -> Result<Hub, MetaReadFault>
    ensures began { IfOk result (λ hub. IsNew meta hub) }
    ensures refused { IfErr result (λ e. e ≡ MetaReadFault.NoMemory) }
{
    match Hub::new(alloc, meta) {
        Ok(hub) => Ok(hub),
        Err(NoMemory) => Err(MetaReadFault::NoMemory),
    }
}

/// Keeps a line of the metadata.
fn keep_line(metadata: &mut Vec<u8>, line: &[u8]) -> LineResult
    ensures { IfWent result (metadata.new.items ≡ metadata.old.items ++ line.now ++ 10 ∷ []) }
{
    if metadata.extend_from_slice(line).is_err() {
        return LineResult::NoMemory;
    }
    match metadata.push(b'\n') {
        Ok(()) => LineResult::Went,
        Err(_) => LineResult::NoMemory,
    }
}
