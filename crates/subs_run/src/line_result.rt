ghost use Rattle.subs_run.specs.Events.{IsWent};

use scalar_val::NoMemory;
use script_text::ScriptReason;

/// What became of a line.
#[derive(Clone, Copy)]
pub(crate) enum LineResult {
    /// It went, and its transcript was appended.
    Went,
    Faulty(ScriptReason),
    NoMemory,
}

/// A line went, if its transcript could be appended.
pub(crate) fn went(written: Result<(), NoMemory>) -> LineResult
    ensures { IsWent result written }
{
    match written {
        Ok(()) => LineResult::Went,
        Err(NoMemory) => LineResult::NoMemory,
    }
}
