ghost use Rattle.std.specs.Prelude.{◌≡◌, ◌<◌};

use crate::rows::{CLOSES, POLLS, QUEUES, REFUSALS, RESULTS, ROLES, Row, STREAMS};
use crate::run_main;
use outside::{MemSink, MemSource};
use scalar_val::{NoMemory, Steps};
use std::alloc::Global;
use std::marker::Brand;
use std::sync::ledger::{Blank, Ledger};
use std::test::Fail;

/// Metadata of one table, in four lines, and its columns.
const TABLE: &str = "version = 1\n[[tables]]\nname = \"user\"\nkey = [\"id\"]\n";

const COLUMNS: &str =
    "columns = [{ name = \"id\", type = \"int\" }, { name = \"name\", type = \"text\", nullable = true }]\n";

const END: &str = "---\n";

const INIT: &str = "open 1\nrecv 1 {\"type\":\"connection_init\"}\n";

const ACKNOWLEDGED: &str = "open 1\nrecv 1\n> 1 {\"type\":\"connection_ack\"}\n";

const ASK: &str =
    "recv 1 {\"type\":\"subscribe\",\"id\":\"a\",\"payload\":{\"query\":\"subscription { user { id name } }\"}}\n";

const FIRST: &str =
    "recv 1\ntick 1\njob 1 version 0 cohorts 1 members 1\npublished 1 version 0\n> 1 {\"type\":\"next\",\"id\":\"a\",\"payload\":{\"data\":{\"user\":[]}}}\n";

/// Runs the words over ends in memory with a counter of its own.
fn run_words<L: Ledger>(
    alloc: Global,
    blank: Blank,
    words: &[String],
    source: &mut MemSource,
    sink: &mut MemSink,
) -> u8
    requires name { blank.name ≡ L.name }
    requires parts { blank.parts ≡ L.parts }
    requires some { 0 < blank.parts }
{
    let mut steps = Steps::<L>::new(blank);
    run_main(alloc, words, source, sink, &mut steps)
}

/// The words of a command line with a space between two.
fn words_of(alloc: Global, line: &str) -> Result<Vec<String>, Fail> {
    let mut words = Vec::new(alloc);
    for text in line.split(' ') {
        if !text.is_empty() {
            words.push(String::from_str(alloc, text)?)?;
        }
    }
    Ok(words)
}

/// Runs the words of a line over ends in memory.
fn status_of(
    alloc: Global,
    line: &str,
    source: &mut MemSource,
    sink: &mut MemSink,
) -> Result<u8, Fail> {
    let words = words_of(alloc, line)?;
    Ok(run_words::<Brand>(alloc, Blank::new(1), &words, source, sink))
}

fn joined(alloc: Global, texts: &[&str]) -> Result<Vec<u8>, NoMemory> {
    let mut bytes = Vec::new(alloc);
    for text in texts {
        bytes.extend_from_slice(text.as_bytes())?;
    }
    Ok(bytes)
}

/// The status of a script, and what is written for it.
fn answer(alloc: Global, script: &[&str]) -> Result<(u8, Vec<u8>), Fail> {
    let mut source = MemSource::new(joined(alloc, script)?, 7, Vec::new(alloc));
    let mut sink = MemSink::new(alloc, Vec::new(alloc));
    let status = status_of(alloc, "run", &mut source, &mut sink)?;
    Ok((status, sink.as_slice().to_vec(alloc)?))
}

/// The place of the first script that isn't answered as it should be, from 0.
fn wrong_row(alloc: Global, rows: &[Row]) -> Result<Option<usize>, Fail> {
    for (place, (heading, lines, want)) in rows.iter().enumerate() {
        let (status, told) = answer(alloc, &[heading, END, lines])?;
        if status != 0 || told.as_slice() != want.as_bytes() {
            return Ok(Some(place));
        }
    }
    Ok(None)
}

#[test]
fn polls_tell_what_changed(rt: HostRuntime) -> Result<(), Fail> {
    let wrong = wrong_row(rt.alloc(), &POLLS)?;
    assert_eq!(rt; wrong, None);
    Ok(())
}

#[test]
fn connections_are_closed_with_their_reasons(rt: HostRuntime) -> Result<(), Fail> {
    let wrong = wrong_row(rt.alloc(), &CLOSES)?;
    assert_eq!(rt; wrong, None);
    Ok(())
}

#[test]
fn roles_see_their_own_rows(rt: HostRuntime) -> Result<(), Fail> {
    let wrong = wrong_row(rt.alloc(), &ROLES)?;
    assert_eq!(rt; wrong, None);
    Ok(())
}

#[test]
fn results_are_ordered_and_cut(rt: HostRuntime) -> Result<(), Fail> {
    let wrong = wrong_row(rt.alloc(), &RESULTS)?;
    assert_eq!(rt; wrong, None);
    Ok(())
}

#[test]
fn streams_go_along_their_cursors(rt: HostRuntime) -> Result<(), Fail> {
    let wrong = wrong_row(rt.alloc(), &STREAMS)?;
    assert_eq!(rt; wrong, None);
    Ok(())
}

#[test]
fn requests_are_refused_by_name(rt: HostRuntime) -> Result<(), Fail> {
    let wrong = wrong_row(rt.alloc(), &REFUSALS)?;
    assert_eq!(rt; wrong, None);
    Ok(())
}

#[test]
fn queues_are_drained_and_counted(rt: HostRuntime) -> Result<(), Fail> {
    let wrong = wrong_row(rt.alloc(), &QUEUES)?;
    assert_eq!(rt; wrong, None);
    Ok(())
}

#[test]
fn a_change_is_told_and_a_change_back_is_not(rt: HostRuntime) -> Result<(), Fail> {
    let alloc = rt.alloc();
    let changes =
        "commit [{\"insert\":\"user\",\"row\":{\"id\":1,\"name\":\"Ann\"}}]\npoll\ncommit [{\"update\":\"user\",\"key\":{\"id\":1},\"set\":{\"name\":\"Bo\"}}]\ncommit [{\"update\":\"user\",\"key\":{\"id\":1},\"set\":{\"name\":\"Ann\"}}]\npoll\n";
    let (status, told) = answer(alloc, &[TABLE, COLUMNS, END, INIT, ASK, "poll\n", changes])?;
    let want = joined(
        alloc,
        &[
            ACKNOWLEDGED,
            FIRST,
            "commit 1\ntick 1\njob 2 version 1 cohorts 1 members 1\npublished 2 version 1\n> 1 {\"type\":\"next\",\"id\":\"a\",\"payload\":{\"data\":{\"user\":[{\"id\":1,\"name\":\"Ann\"}]}}}\ncommit 2\ncommit 3\ntick 1\njob 3 version 3 cohorts 1 members 1\npublished 3 version 3\n",
        ],
    )?;
    assert_eq!(rt; told.as_slice(), want.as_slice());
    assert_eq!(rt; status, 0);
    Ok(())
}

#[test]
fn a_poll_without_a_change_tells_nothing(rt: HostRuntime) -> Result<(), Fail> {
    let alloc = rt.alloc();
    let (status, told) = answer(
        alloc,
        &[TABLE, COLUMNS, END, INIT, ASK, "poll\n\n# again\npoll\n"],
    )?;
    let want = joined(
        alloc,
        &[
            ACKNOWLEDGED,
            FIRST,
            "tick 1\njob 2 version 0 cohorts 1 members 1\npublished 2 version 0\n",
        ],
    )?;
    assert_eq!(rt; told.as_slice(), want.as_slice());
    assert_eq!(rt; status, 0);
    Ok(())
}

#[test]
fn the_ends_of_bigint_and_escapes_are_told(rt: HostRuntime) -> Result<(), Fail> {
    let alloc = rt.alloc();
    let heading =
        "version = 1\n[[tables]]\nname = \"k\"\nkey = [\"id\"]\ncolumns = [{ name = \"id\", type = \"bigint\" }, { name = \"body\", type = \"text\" }]\n---\n";
    let ask =
        "recv 1 {\"type\":\"subscribe\",\"id\":\"a\",\"payload\":{\"query\":\"subscription { k { id body } }\"}}\n";
    let commit =
        "commit [{\"insert\":\"k\",\"row\":{\"id\":9223372036854775807,\"body\":\"\\\"\\u0001\"}},{\"insert\":\"k\",\"row\":{\"id\":-9223372036854775808,\"body\":\"\"}}]\npoll\n";
    let (status, told) = answer(alloc, &[heading, INIT, ask, commit])?;
    let want = joined(
        alloc,
        &[
            ACKNOWLEDGED,
            "recv 1\ncommit 1\ntick 1\njob 1 version 1 cohorts 1 members 1\npublished 1 version 1\n> 1 {\"type\":\"next\",\"id\":\"a\",\"payload\":{\"data\":{\"k\":[{\"id\":-9223372036854775808,\"body\":\"\"},{\"id\":9223372036854775807,\"body\":\"\\\"\\u0001\"}]}}}\n",
        ],
    )?;
    assert_eq!(rt; told.as_slice(), want.as_slice());
    assert_eq!(rt; status, 0);
    Ok(())
}

#[test]
fn each_refusal_has_its_reason(rt: HostRuntime) -> Result<(), Fail> {
    let alloc = rt.alloc();
    let taken =
        "commit [{\"insert\":\"user\",\"row\":{\"id\":1}},{\"insert\":\"user\",\"row\":{\"id\":2}},{\"insert\":\"user\",\"row\":{\"id\":1}}]\n";
    let (status, told) = answer(alloc, &[TABLE, COLUMNS, END, taken])?;
    assert_eq!(rt; told.as_slice(), b"refused 3 KeyTaken\n".as_slice());
    assert_eq!(rt; status, 0);

    let commits =
        "commit [{\"insert\":\"user\",\"row\":{\"id\":1,\"name\":\"Ann\"}}]\ncommit [{\"insert\":\"user\",\"row\":{\"id\":2,\"name\":\"Ann\"}}]\ncommit [{\"insert\":\"user\",\"row\":{\"id\":2}}]\ncommit [{\"update\":\"user\",\"key\":{\"id\":3},\"set\":{}}]\ncommit [{\"insert\":\"x\",\"row\":{}}]\ncommit [{\"insert\":\"user\",\"row\":{\"id\":2,\"age\":1}}]\ncommit [{\"insert\":\"user\",\"row\":{\"id\":\"a\"}}]\ncommit [{\"insert\":\"user\",\"row\":{\"name\":\"B\"}}]\ncommit {}\n";
    let (status, told) = answer(
        alloc,
        &[
            TABLE,
            COLUMNS,
            "unique = [\"name\"]\nmax_rows = 1\n",
            END,
            commits,
        ],
    )?;
    let want =
        b"commit 1\nrefused 1 UniqueTaken\nrefused 1 TableFull\nrefused 1 NoRow\nrefused 1 NoTable\nrefused 1 NoColumn\nrefused 1 WrongKind\nrefused 1 NullGiven\nfault 17 transaction\n";
    assert_eq!(rt; told.as_slice(), want.as_slice());
    assert_eq!(rt; status, 2);
    Ok(())
}

#[test]
fn a_line_at_fault_ends_the_script(rt: HostRuntime) -> Result<(), Fail> {
    let alloc = rt.alloc();
    for (lines, want) in [
        ("rec", "open 1\nfault 8 cut\n"),
        ("frob 1\n", "open 1\nfault 8 event\n"),
        ("open 1\n", "open 1\nfault 8 known\n"),
        ("recv 2 {}\n", "open 1\nfault 8 unknown\n"),
        ("drain 2\n", "open 1\nfault 8 unknown\n"),
        ("drain 1\n", "open 1\nempty 1\n"),
        ("tick\n", "open 1\ntick 0\n"),
        ("publish 1\n", "open 1\nnot open 1\n"),
        ("commit {}\n", "open 1\nfault 8 transaction\n"),
        ("commit []\n", "open 1\ncommit 1\n"),
    ] {
        let (status, told) = answer(alloc, &[TABLE, COLUMNS, END, "open 1\n", lines])?;
        assert_eq!(rt; told.as_slice(), want.as_bytes());
        assert_eq!(rt; status == 2, want.contains("fault"));
    }
    Ok(())
}

#[test]
fn the_first_fault_of_metadata_is_told(rt: HostRuntime) -> Result<(), Fail> {
    let alloc = rt.alloc();
    for (heading, want) in [
        ("", "fault 2 metadata BadForm\n"),
        ("version = \n", "fault 3 metadata Toml\n"),
        (
            "version = 3\n[[tables]]\nname = \"user\"\nkey = [\"id\"]\n",
            "fault 6 metadata BadVersion\n",
        ),
        (
            "version = 1\n[[tables]]\nname = \"user\"\n",
            "fault 5 metadata BadForm\n",
        ),
        (
            "version = 1\n[[tables]]\nname = \"user\"\nkey = [\"no\"]\n",
            "fault 6 metadata NoColumn\n",
        ),
        (
            "version = 1\n[[tables]]\nname = \"user\"\nkey = [\"name\"]\n",
            "fault 6 metadata BadKind\n",
        ),
    ] {
        let (status, told) = answer(alloc, &[heading, COLUMNS, END])?;
        assert_eq!(rt; told.as_slice(), want.as_bytes());
        assert_eq!(rt; status, 2);
    }
    let (status, told) = answer(alloc, &[])?;
    assert_eq!(rt; told.as_slice(), b"fault 1 cut\n".as_slice());
    assert_eq!(rt; status, 2);
    Ok(())
}

#[test]
fn a_failing_source_is_told(rt: HostRuntime) -> Result<(), Fail> {
    let alloc = rt.alloc();
    let mut bytes = joined(alloc, &[TABLE, COLUMNS, END, INIT])?;
    let front = bytes.len().max(1);
    bytes.extend_from_slice(ASK.as_bytes())?;
    bytes.extend_from_slice(b"poll\n")?;
    let mut source = MemSource::new(bytes, front, [2].to_vec(alloc)?);
    let mut sink = MemSink::new(alloc, Vec::new(alloc));
    let status = status_of(alloc, "run", &mut source, &mut sink)?;
    assert_eq!(rt; status, 1);
    assert_eq!(rt; sink.as_slice(), ACKNOWLEDGED.as_bytes());
    Ok(())
}

#[test]
fn a_failing_sink_is_told(rt: HostRuntime) -> Result<(), Fail> {
    let alloc = rt.alloc();
    let bytes = joined(alloc, &[TABLE, COLUMNS, END, INIT, ASK, "poll\n"])?;
    let mut source = MemSource::new(bytes, 4096, Vec::new(alloc));
    let mut sink = MemSink::new(alloc, [1].to_vec(alloc)?);
    let status = status_of(alloc, "run", &mut source, &mut sink)?;
    assert_eq!(rt; status, 3);
    assert!(rt; sink.as_slice().is_empty());
    Ok(())
}

#[test]
fn other_words_bring_the_usage_line(rt: HostRuntime) -> Result<(), Fail> {
    let alloc = rt.alloc();
    for line in [
        "",
        "serve",
        "run run",
        "load",
        "load 0",
        "load 07",
        "load 1001",
        "load 1 1",
    ] {
        let mut source = MemSource::new(TABLE.as_bytes().to_vec(alloc)?, 4096, Vec::new(alloc));
        let mut sink = MemSink::new(alloc, Vec::new(alloc));
        let got = status_of(alloc, line, &mut source, &mut sink)?;
        assert_eq!(rt; got, 5);
        assert_eq!(rt;
            sink.as_slice(),
            b"usage: subs COMMAND [WORDS]\n".as_slice()
        );
        assert_eq!(rt; source.left(), TABLE.as_bytes());
    }
    Ok(())
}

// The lines are counted from the rules of the script: of one subscriber 9 up to the first result, 5 a round, and the
// report. The digests are those of transcripts that another program makes from the rules.
#[test]
fn generated_scripts_are_summed_up(rt: HostRuntime) -> Result<(), Fail> {
    let alloc = rt.alloc();
    for (words, line) in [
        (
            "load 1",
            "load 1 lines 60 sha256 3b6d44bdde17705db0e73957e3bc1741572c750cb7d6e396ff1087cec456f722\n",
        ),
        (
            "load 7",
            "load 7 lines 87 sha256 fc8e449a0e7a6145d9fa4d879ffa985a19539051b118cb66ee32e949cc9062c7\n",
        ),
        (
            "load 100",
            "load 100 lines 555 sha256 e0c0b2bfadf37c0088f51efd79ac4ce20bcc6877b61c81430d166b21b0efc5c5\n",
        ),
    ] {
        let mut source = MemSource::new(TABLE.as_bytes().to_vec(alloc)?, 4096, Vec::new(alloc));
        let mut sink = MemSink::new(alloc, Vec::new(alloc));
        let status = status_of(alloc, words, &mut source, &mut sink)?;
        assert_eq!(rt; status, 0);
        assert_eq!(rt; sink.as_slice(), line.as_bytes());
        assert_eq!(rt; source.left(), TABLE.as_bytes());
    }
    Ok(())
}
