use crate::{
    Line, ScriptReason, read_line, write_abandoned, write_binary, write_commit, write_done,
    write_empty, write_fault, write_gone, write_job, write_none, write_not_open, write_open,
    write_published, write_recv, write_refused, write_report, write_sent, write_tick,
    write_timeout,
};
use data_model::{Reason, TxFault};
use machine::{Counts, Queued, QueuedList};
use outbox::OutText;
use role_model::MetaFault;
use scalar_val::{List, NoMemory};
use std::alloc::Global;
use std::test::Fail;
use wire_model::{CloseReason, close_exists};

fn line_text(alloc: Global, line: &[u8]) -> Result<String, NoMemory> {
    Ok(match read_line(line) {
        None => String::from_str(alloc, "none")?,
        Some(line) => format!(in alloc; "{line:?}")?,
    })
}

#[test]
fn each_form_of_line_is_read(rt: HostRuntime) -> Result<(), Fail> {
    let alloc = rt.alloc();
    for (line, want) in [
        (b"".as_slice(), "Passed"),
        (b"# open 1", "Passed"),
        (b"# \xff", "Passed"),
        (b"open 4294967295", "Open(4294967295)"),
        (b"open 0", "Open(0)"),
        (b"recv 7 {} b", "Receive { conn: 7, text: \"{} b\" }"),
        (b"recv 7 ", "Receive { conn: 7, text: \"\" }"),
        (b"recv 7 \xc3\xa9", "Receive { conn: 7, text: \"é\" }"),
        (b"binary 2", "Binary(2)"),
        (b"timeout 3", "Timeout(3)"),
        (b"gone 4", "Gone(4)"),
        (b"commit []", "Commit(\"[]\")"),
        (b"commit ", "Commit(\"\")"),
        (b"tick", "Tick"),
        (b"take", "Take"),
        (
            b"publish 18446744073709551615",
            "Publish(18446744073709551615)",
        ),
        (b"abandon 0", "Abandon(0)"),
        (b"drain 5", "Drain(5)"),
        (b"report", "Report"),
        (b"poll", "Poll"),
    ] {
        assert_eq!(rt; line_text(alloc, line)?.as_str(), want);
    }
    Ok(())
}

#[test]
fn any_other_line_is_no_event(rt: HostRuntime) -> Result<(), Fail> {
    let alloc = rt.alloc();
    for line in [
        b"open 01".as_slice(),
        b"open 00",
        b"open 4294967296",
        b"open 99999999999999999999999999999999999999999999",
        b"open ",
        b"open",
        b"open  1",
        b"open 1 ",
        b"open +1",
        b"open -1",
        b"Open 1",
        b"recv 7",
        b"recv 07 x",
        b"recv 7 \xff",
        b"commit",
        b"tick ",
        b"poll 1",
        b" poll",
        b"poll\r",
        b"---",
        b"publish 18446744073709551616",
        b"frob 1",
    ] {
        assert_eq!(rt; line_text(alloc, line)?.as_str(), "none");
    }
    Ok(())
}

fn queued(alloc: Global, conn: u32, texts: &[&[u8]]) -> Result<QueuedList, NoMemory> {
    let mut items = Vec::new(alloc);
    for text in texts {
        let text = OutText::of(alloc, text)?;
        items.push(Queued { conn, text })?;
    }
    Ok(List::from_vec(items))
}

#[test]
fn events_of_a_connection_are_written(rt: HostRuntime) -> Result<(), Fail> {
    let mut out = Vec::new(rt.alloc());
    let none = List::new(rt.alloc());
    write_open(&mut out, 0, &none, &None)?;
    write_recv(&mut out, 1, &none, &None)?;
    write_binary(&mut out, 22, &none, &None)?;
    write_timeout(&mut out, 333, &none, &None)?;
    write_gone(&mut out, 4294967295, &none, &None)?;
    let want = b"open 0\nrecv 1\nrecv 22\ntimeout 333\ngone 4294967295\n";
    assert_eq!(rt; out.as_slice(), want.as_slice());
    Ok(())
}

#[test]
fn queued_texts_come_before_the_close(rt: HostRuntime) -> Result<(), Fail> {
    let mut out = Vec::new(rt.alloc());
    let texts = queued(rt.alloc(), 1, &[b"{\"type\":\"pong\"}", b"", b"> 1 x"])?;
    write_recv(&mut out, 2, &texts, &Some(CloseReason::TooManyInits))?;
    let want =
        b"recv 2\n> 1 {\"type\":\"pong\"}\n> 1 \n> 1 > 1 x\n! 2 4429 \"Too many initialisation requests\"\n";
    assert_eq!(rt; out.as_slice(), want.as_slice());
    Ok(())
}

#[test]
fn each_close_has_its_code_and_reason(rt: HostRuntime) -> Result<(), Fail> {
    let mut out = Vec::new(rt.alloc());
    let none = List::new(rt.alloc());
    for reason in [
        CloseReason::Invalid,
        CloseReason::Unauthorized,
        CloseReason::Forbidden,
        CloseReason::InitTimeout,
        CloseReason::TooManyInits,
    ] {
        write_timeout(&mut out, 7, &none, &Some(reason))?;
    }
    let want = b"timeout 7\n\
          ! 7 4400 \"Invalid message\"\n\
          timeout 7\n\
          ! 7 4401 \"Unauthorized\"\n\
          timeout 7\n\
          ! 7 4403 \"Forbidden\"\n\
          timeout 7\n\
          ! 7 4408 \"Connection initialisation timeout\"\n\
          timeout 7\n\
          ! 7 4429 \"Too many initialisation requests\"\n";
    assert_eq!(rt; out.as_slice(), want.as_slice());
    Ok(())
}

fn done_line(alloc: Global, id: &str) -> Result<Vec<u8>, NoMemory> {
    let mut out = Vec::new(alloc);
    write_done(&mut out, 7, &close_exists(id))?;
    Ok(out)
}

#[test]
fn an_id_in_a_reason_is_escaped(rt: HostRuntime) -> Result<(), Fail> {
    for (id, want) in [
        ("", "done 7 4409 \"Subscriber for  already exists\"\n"),
        ("a", "done 7 4409 \"Subscriber for a already exists\"\n"),
        ("é/", "done 7 4409 \"Subscriber for é/ already exists\"\n"),
        (
            "\"\\\n\r\t",
            "done 7 4409 \"Subscriber for \\\"\\\\\\n\\r\\t already exists\"\n",
        ),
        (
            "\u{8}\u{c}\u{0}\u{1f}\u{7f}",
            "done 7 4409 \"Subscriber for \\b\\f\\u0000\\u001f\u{7f} already exists\"\n",
        ),
    ] {
        assert_eq!(rt; done_line(rt.alloc(), id)?.as_slice(), want.as_bytes());
    }
    Ok(())
}

#[test]
fn ticks_takes_and_commits_are_written(rt: HostRuntime) -> Result<(), Fail> {
    let mut out = Vec::new(rt.alloc());
    write_commit(&mut out, 18446744073709551615)?;
    write_tick(&mut out, 0)?;
    write_job(&mut out, 1, 2, 3, 4)?;
    write_none(&mut out)?;
    let want = b"commit 18446744073709551615\ntick 0\njob 1 version 2 cohorts 3 members 4\nnone\n";
    assert_eq!(rt; out.as_slice(), want.as_slice());
    Ok(())
}

#[test]
fn publications_are_written(rt: HostRuntime) -> Result<(), Fail> {
    let mut out = Vec::new(rt.alloc());
    let texts = queued(rt.alloc(), 9, &[b"x"])?;
    write_published(&mut out, 1, 2, &texts)?;
    write_abandoned(&mut out, 3)?;
    write_not_open(&mut out, 18446744073709551615)?;
    let want = b"published 1 version 2\n> 9 x\nabandoned 3\nnot open 18446744073709551615\n";
    assert_eq!(rt; out.as_slice(), want.as_slice());
    Ok(())
}

#[test]
fn drains_are_written(rt: HostRuntime) -> Result<(), Fail> {
    let mut out = Vec::new(rt.alloc());
    write_sent(&mut out, 5, "{\"é\":1}".as_bytes())?;
    write_sent(&mut out, 5, b"")?;
    write_empty(&mut out, 6)?;
    write_done(&mut out, 4294967295, &CloseReason::Forbidden)?;
    let want = "sent 5 {\"é\":1}\nsent 5 \nempty 6\ndone 4294967295 4403 \"Forbidden\"\n";
    assert_eq!(rt; out.as_slice(), want.as_bytes());
    Ok(())
}

#[test]
fn a_report_is_written(rt: HostRuntime) -> Result<(), Fail> {
    let mut out = Vec::new(rt.alloc());
    let counts = Counts {
        connections: 1,
        live: 20,
        due: 0,
        jobs: 18446744073709551615,
        version: 5,
    };
    write_report(&mut out, counts)?;
    let want = b"report connections 1 live 20 due 0 jobs 18446744073709551615 version 5\n";
    assert_eq!(rt; out.as_slice(), want.as_slice());
    Ok(())
}

#[test]
fn each_refusal_has_its_name(rt: HostRuntime) -> Result<(), Fail> {
    let alloc = rt.alloc();
    let mut out = Vec::new(alloc);
    for reason in [
        Reason::NoTable,
        Reason::NoColumn,
        Reason::WrongKind,
        Reason::NullGiven,
        Reason::NoRow,
        Reason::KeyTaken,
        Reason::UniqueTaken,
        Reason::TableFull,
    ] {
        write_refused(&mut out, TxFault { change: 3, reason })?;
    }
    let want = b"refused 3 NoTable\n\
          refused 3 NoColumn\n\
          refused 3 WrongKind\n\
          refused 3 NullGiven\n\
          refused 3 NoRow\n\
          refused 3 KeyTaken\n\
          refused 3 UniqueTaken\n\
          refused 3 TableFull\n";
    assert_eq!(rt; out.as_slice(), want.as_slice());
    Ok(())
}

#[test]
fn each_fault_has_its_words(rt: HostRuntime) -> Result<(), Fail> {
    let alloc = rt.alloc();
    let mut out = Vec::new(alloc);
    for reason in [
        ScriptReason::Cut,
        ScriptReason::Size,
        ScriptReason::Metadata(MetaFault::BadVersion),
        ScriptReason::NotEvent,
        ScriptReason::Transaction,
        ScriptReason::Known,
        ScriptReason::Unknown,
    ] {
        write_fault(&mut out, 8, reason)?;
    }
    let want = b"fault 8 cut\n\
          fault 8 size\n\
          fault 8 metadata BadVersion\n\
          fault 8 event\n\
          fault 8 transaction\n\
          fault 8 known\n\
          fault 8 unknown\n";
    assert_eq!(rt; out.as_slice(), want.as_slice());
    Ok(())
}
