ghost use Rattle.std.specs.Prelude.{◌≡◌, ◌++◌, ◌∷◌, [], List, length, OnOk};
ghost use Rattle.std.specs.List.{flat_map};
ghost use Rattle.data_model.specs.declared.transaction.TxChange.{TxChange};
ghost use Rattle.machine.specs.Messages.{Message};
ghost use Rattle.machine.specs.State as state;
ghost use Rattle.machine.specs.Transcript.{close_line, numbered, queued_line, refusal_name, report_line};
ghost use Rattle.machine.specs.Transcript as transcript;
ghost use Rattle.script_text.specs.Told.{closes_of, Tells};

use crate::parts::{append, end_line, write_closed, write_number, write_queued, write_reason};
use data_model::{Reason, TxFault};
use machine::{Counts, QueuedList};
use scalar_val::NoMemory;
use wire_model::CloseReason;

/// Appends the transcript of `open C`. For want of memory a part of it may be appended; so it is with each function
/// here.
pub fn write_open(
    out: &mut Vec<u8>,
    conn: u32,
    queued: &QueuedList,
    closed: &Option<CloseReason>,
) -> Result<(), NoMemory>
    ensures { OnOk result (Tells (state.Connect conn) state.Did queued.now (closes_of conn closed.now) out.old.items
        out.new.items) }
{
    write_conn(out, b"open", conn, queued, closed)
}

/// Appends the transcript of `recv C TEXT`: the texts that were queued, and the close that the message brought.
pub fn write_recv(
    out: &mut Vec<u8>,
    conn: u32,
    queued: &QueuedList,
    closed: &Option<CloseReason>,
) -> Result<(), NoMemory>
    ensures { OnOk result ((message : Message) → Tells (state.Receive conn message) state.Did queued.now
        (closes_of conn closed.now) out.old.items out.new.items) }
{
    write_conn(out, b"recv", conn, queued, closed)
}

/// Appends the transcript of `binary C`, whose first word is `recv` too.
pub fn write_binary(
    out: &mut Vec<u8>,
    conn: u32,
    queued: &QueuedList,
    closed: &Option<CloseReason>,
) -> Result<(), NoMemory>
    ensures { OnOk result (Tells (state.Binary conn) state.Did queued.now (closes_of conn closed.now) out.old.items
        out.new.items) }
{
    write_conn(out, b"recv", conn, queued, closed)
}

/// Appends the transcript of `timeout C`, with the close that it brought.
pub fn write_timeout(
    out: &mut Vec<u8>,
    conn: u32,
    queued: &QueuedList,
    closed: &Option<CloseReason>,
) -> Result<(), NoMemory>
    ensures { OnOk result (Tells (state.Timeout conn) state.Did queued.now (closes_of conn closed.now) out.old.items
        out.new.items) }
{
    write_conn(out, b"timeout", conn, queued, closed)
}

/// Appends the transcript of `gone C`.
pub fn write_gone(
    out: &mut Vec<u8>,
    conn: u32,
    queued: &QueuedList,
    closed: &Option<CloseReason>,
) -> Result<(), NoMemory>
    ensures { OnOk result (Tells (state.Gone conn) state.Did queued.now (closes_of conn closed.now) out.old.items
        out.new.items) }
{
    write_conn(out, b"gone", conn, queued, closed)
}

/// A word and a connection, then a line for each queued text and one for the close.
fn write_conn(
    out: &mut Vec<u8>,
    word: &[u8],
    conn: u32,
    queued: &QueuedList,
    closed: &Option<CloseReason>,
) -> Result<(), NoMemory>
    ensures { OnOk result (out.new.items ≡ out.old.items ++ (numbered word.now conn
        ++ 10 ∷ flat_map queued_line queued.now ++ flat_map close_line (closes_of conn closed.now))) }
{
    write_number(out, word, u64::from(conn))?;
    write_queued(out, queued.as_slice())?;
    write_closed(out, conn, closed)
}

/// Appends the transcript of an accepted commit, with the new version.
pub fn write_commit(out: &mut Vec<u8>, version: u64) -> Result<(), NoMemory>
    ensures { OnOk result ((tx : List TxChange) →
        Tells (state.Commit tx) (state.Committed version) [] [] out.old.items out.new.items) }
{
    write_number(out, b"commit", version)?;
    end_line(out)
}

/// Appends the transcript of a refused commit: the number of the change that was refused, from 1, and the reason's
/// name.
pub fn write_refused(out: &mut Vec<u8>, fault: TxFault) -> Result<(), NoMemory>
    ensures { OnOk result ((tx : List TxChange) →
        Tells (state.Commit tx) (state.Declined fault) [] [] out.old.items out.new.items) }
{
    write_number(out, b"refused", fault.change)?;
    append(out, b" ")?;
    append(out, refusal_name(fault.reason))?;
    end_line(out)
}

fn refusal_name(reason: Reason) -> &'static [u8]
    ensures { result.now ≡ refusal_name reason }
{
    match reason {
        Reason::NoTable => b"NoTable",
        Reason::NoColumn => b"NoColumn",
        Reason::WrongKind => b"WrongKind",
        Reason::NullGiven => b"NullGiven",
        Reason::NoRow => b"NoRow",
        Reason::KeyTaken => b"KeyTaken",
        Reason::UniqueTaken => b"UniqueTaken",
        Reason::TableFull => b"TableFull",
    }
}

/// Appends the transcript of a tick, with the count of those that are due.
pub fn write_tick(out: &mut Vec<u8>, count: u64) -> Result<(), NoMemory>
    ensures { OnOk result (Tells state.Tick (state.Ticked count) [] [] out.old.items out.new.items) }
{
    write_number(out, b"tick", count)?;
    end_line(out)
}

/// Appends the transcript of a take: the job's number and version, and how many cohorts and members it has.
pub fn write_job(
    out: &mut Vec<u8>,
    number: u64,
    version: u64,
    cohorts: u64,
    members: u64,
) -> Result<(), NoMemory>
    ensures { OnOk result ((job : state.Job) → job.number ≡ number → job.version ≡ version →
        transcript.cohorts job.members ≡ cohorts → length job.members ≡ members →
        Tells state.Take (state.Taken job) [] [] out.old.items out.new.items) }
{
    write_number(out, b"job", number)?;
    write_number(out, b" version", version)?;
    write_number(out, b" cohorts", cohorts)?;
    write_number(out, b" members", members)?;
    end_line(out)
}

/// Appends the transcript of a take when nobody is due.
pub fn write_none(out: &mut Vec<u8>) -> Result<(), NoMemory>
    ensures { OnOk result (Tells state.Take state.Nobody [] [] out.old.items out.new.items) }
{
    append(out, b"none\n")
}

/// Appends the transcript of a publication: the job's number and version, and the texts that were queued.
pub fn write_published(
    out: &mut Vec<u8>,
    number: u64,
    version: u64,
    queued: &QueuedList,
) -> Result<(), NoMemory>
    ensures { OnOk result (Tells (state.Publish number) (state.Published version) queued.now [] out.old.items
        out.new.items) }
{
    write_number(out, b"published", number)?;
    write_number(out, b" version", version)?;
    write_queued(out, queued.as_slice())
}

/// Appends the transcript of `abandon J` for an open job.
pub fn write_abandoned(out: &mut Vec<u8>, number: u64) -> Result<(), NoMemory>
    ensures { OnOk result (Tells (state.Abandon number) state.Abandoned [] [] out.old.items out.new.items) }
{
    write_number(out, b"abandoned", number)?;
    end_line(out)
}

/// Appends the transcript of `publish J` or `abandon J` for a job that isn't open.
pub fn write_not_open(out: &mut Vec<u8>, number: u64) -> Result<(), NoMemory>
    ensures publish { OnOk result (Tells (state.Publish number) state.NotOpen [] [] out.old.items out.new.items) }
    ensures abandon { OnOk result (Tells (state.Abandon number) state.NotOpen [] [] out.old.items out.new.items) }
{
    write_number(out, b"not open", number)?;
    end_line(out)
}

/// Appends the transcript of a drain that gave a text.
pub fn write_sent(out: &mut Vec<u8>, conn: u32, text: &[u8]) -> Result<(), NoMemory>
    ensures { OnOk result (Tells (state.Drain conn) (state.Sent text.now) [] [] out.old.items out.new.items) }
{
    write_number(out, b"sent", u64::from(conn))?;
    append(out, b" ")?;
    append(out, text)?;
    end_line(out)
}

/// Appends the transcript of a drain of an empty queue, of a connection that isn't closed.
pub fn write_empty(out: &mut Vec<u8>, conn: u32) -> Result<(), NoMemory>
    ensures { OnOk result (Tells (state.Drain conn) state.Empty [] [] out.old.items out.new.items) }
{
    write_number(out, b"empty", u64::from(conn))?;
    end_line(out)
}

/// Appends the transcript of a drain of an empty queue, of a closed connection: the code of the close, and its reason
/// as a JSON string.
pub fn write_done(out: &mut Vec<u8>, conn: u32, reason: &CloseReason) -> Result<(), NoMemory>
    ensures { OnOk result (Tells (state.Drain conn) (state.Done reason.now) [] [] out.old.items out.new.items) }
{
    write_number(out, b"done", u64::from(conn))?;
    append(out, b" ")?;
    write_reason(out, reason)?;
    end_line(out)
}

/// Appends the transcript of a report.
pub fn write_report(out: &mut Vec<u8>, counts: Counts) -> Result<(), NoMemory>
    ensures { OnOk result (Tells state.Report (state.Reported counts) [] [] out.old.items out.new.items) }
{
    write_counts(out, counts)?;
    end_line(out)
}

fn write_counts(out: &mut Vec<u8>, counts: Counts) -> Result<(), NoMemory>
    ensures { OnOk result (out.new.items ≡ out.old.items ++ report_line counts) }
{
    write_number(out, b"report connections", counts.connections)?;
    write_number(out, b" live", counts.live)?;
    write_number(out, b" due", counts.due)?;
    write_number(out, b" jobs", counts.jobs)?;
    write_number(out, b" version", counts.version)
}
