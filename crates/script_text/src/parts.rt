ghost use Rattle.std.specs.Prelude.{◌≡◌, ◌++◌, ◌∷◌, [], OnOk};
ghost use Rattle.std.specs.List.{flat_map};
ghost use Rattle.machine.specs.Transcript.{close_line, close_text, numbered, queued_line};
ghost use Rattle.script_text.specs.Told.{closes_of};

use crate::quoted::write_quoted;
use itoa::Buffer;
use machine::Queued;
use scalar_val::NoMemory;
use wire_model::CloseReason;

pub(crate) fn append(out: &mut Vec<u8>, text: &[u8]) -> Result<(), NoMemory>
    ensures { OnOk result (out.new.items ≡ out.old.items ++ text.now) }
{
    out.extend_from_slice(text)?;
    Ok(())
}

/// A word, a space and a number.
pub(crate) fn write_number(out: &mut Vec<u8>, word: &[u8], number: u64) -> Result<(), NoMemory>
    ensures { OnOk result (out.new.items ≡ out.old.items ++ numbered word.now number) }
{
    append(out, word)?;
    append(out, b" ")?;
    append(out, Buffer::new().format(number).as_bytes())
}

pub(crate) fn end_line(out: &mut Vec<u8>) -> Result<(), NoMemory>
    ensures { OnOk result (out.new.items ≡ out.old.items ++ 10 ∷ []) }
{
    append(out, b"\n")
}

/// The end of a line, and then a line for each text.
pub(crate) fn write_queued(out: &mut Vec<u8>, queued: &[Queued]) -> Result<(), NoMemory>
    ensures { OnOk result (out.new.items ≡ out.old.items ++ 10 ∷ flat_map queued_line queued.now) }
{
    end_line(out)?;
    for one in queued {
        write_one(out, one)?;
    }
    Ok(())
}

fn write_one(out: &mut Vec<u8>, one: &Queued) -> Result<(), NoMemory>
    ensures { OnOk result (out.new.items ≡ out.old.items ++ queued_line one.now) }
{
    write_number(out, b">", u64::from(one.conn))?;
    append(out, b" ")?;
    append(out, one.text.as_bytes())?;
    end_line(out)
}

/// A line for the close of a connection, where there is one.
pub(crate) fn write_closed(
    out: &mut Vec<u8>,
    conn: u32,
    closed: &Option<CloseReason>,
) -> Result<(), NoMemory>
    ensures { OnOk result (out.new.items ≡ out.old.items ++ flat_map close_line (closes_of conn closed.now)) }
{
    match closed {
        None => Ok(()),
        Some(reason) => write_close(out, conn, reason),
    }
}

fn write_close(out: &mut Vec<u8>, conn: u32, reason: &CloseReason) -> Result<(), NoMemory>
    ensures { OnOk result (out.new.items ≡ out.old.items ++ flat_map close_line (closes_of conn (Some reason.now))) }
{
    write_number(out, b"!", u64::from(conn))?;
    append(out, b" ")?;
    write_reason(out, reason)?;
    end_line(out)
}

/// The code of a close, a space, and its reason as a JSON string.
pub(crate) fn write_reason(out: &mut Vec<u8>, reason: &CloseReason) -> Result<(), NoMemory>
    ensures { OnOk result (out.new.items ≡ out.old.items ++ close_text reason.now) }
{
    append(out, Buffer::new().format(reason.code()).as_bytes())?;
    append(out, b" ")?;
    write_quoted(out, reason.text())
}
