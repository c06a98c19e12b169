pub use script_text::ScriptReason;

/// How the run of a script ended.
#[derive(Clone, Copy, Debug, PartialEq, Eq)]
pub enum RunEnd {
    /// The whole script was read, and its whole transcript was written.
    Done,

    /// The source failed.
    SourceFault,

    /// The script is at fault on the line of this number, from 1. Its transcript up to there and the fault's line
    /// were written.
    ScriptFault { line: u64, reason: ScriptReason },

    /// The sink failed.
    SinkFault,

    /// Memory was refused.
    NoMemory,
}
