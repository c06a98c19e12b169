ghost use Rattle.std.specs.Prelude.{◌≡◌, ◌++◌, Some, OnOk};
ghost use Rattle.machine.specs.Script.{fault_line, fault_name, reason_text};
ghost use Rattle.script_text.specs.Said.{IsWordOf};

use crate::parts::{append, end_line, write_number};
use machine::ScriptReason;
use role_model::MetaFault;
use scalar_val::NoMemory;

/// Appends the line that ends the transcript of a script at fault: the line's number, from 1, and the reason. For want
/// of memory a part of it may be appended.
pub fn write_fault(out: &mut Vec<u8>, line: u64, reason: ScriptReason) -> Result<(), NoMemory>
    ensures { OnOk result (out.new.items ≡ out.old.items ++ fault_line (Some (line, reason))) }
{
    write_number(out, b"fault", line)?;
    append(out, b" ")?;
    write_reason(out, reason)?;
    end_line(out)
}

fn write_reason(out: &mut Vec<u8>, reason: ScriptReason) -> Result<(), NoMemory>
    ensures { OnOk result (out.new.items ≡ out.old.items ++ reason_text reason) }
{
    if let ScriptReason::Metadata(fault) = reason {
        append(out, b"metadata ")?;
        return append(out, fault_name(fault));
    }
    append(out, reason_word(reason))
}

/// The reasons that are one word.
fn reason_word(reason: ScriptReason) -> &'static [u8]
    ensures { IsWordOf reason result.now }
{
    match reason {
        ScriptReason::Cut => b"cut",
        ScriptReason::Size => b"size",
        ScriptReason::Metadata(_) => b"metadata",
        ScriptReason::NotEvent => b"event",
        ScriptReason::Transaction => b"transaction",
        ScriptReason::Known => b"known",
        ScriptReason::Unknown => b"unknown",
    }
}

fn fault_name(fault: MetaFault) -> &'static [u8]
    ensures { result.now ≡ fault_name fault }
{
    match fault {
        MetaFault::TooLong => b"TooLong",
        MetaFault::Toml => b"Toml",
        MetaFault::BadForm => b"BadForm",
        MetaFault::BadVersion => b"BadVersion",
        MetaFault::TooMany => b"TooMany",
        MetaFault::BadName => b"BadName",
        MetaFault::Duplicate => b"Duplicate",
        MetaFault::NoTable => b"NoTable",
        MetaFault::NoColumn => b"NoColumn",
        MetaFault::BadKind => b"BadKind",
        MetaFault::BadRole => b"BadRole",
        MetaFault::BadFilter => b"BadFilter",
    }
}
