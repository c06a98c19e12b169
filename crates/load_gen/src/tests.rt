use crate::{load_script, summary_line};
use std::test::Fail;

/// The script of one subscriber, line by line.
const OF_ONE: [&str; 32] = [
    "version = 1",
    "[[tables]]",
    "name = \"user\"",
    "key = [\"id\"]",
    "columns = [{ name = \"id\", type = \"int\" }, { name = \"name\", type = \"text\", nullable = true }]",
    "---",
    "commit [{\"insert\":\"user\",\"row\":{\"id\":1,\"name\":\"u1\"}}]",
    "open 1",
    "recv 1 {\"type\":\"connection_init\"}",
    "recv 1 {\"type\":\"subscribe\",\"id\":\"s\",\"payload\":{\"query\":\"subscription($i: Int!) { user_by_pk(id: $i) { id name } }\",\"variables\":{\"i\":1}}}",
    "poll",
    "commit [{\"update\":\"user\",\"key\":{\"id\":1},\"set\":{\"name\":\"r1\"}}]",
    "poll",
    "commit [{\"update\":\"user\",\"key\":{\"id\":1},\"set\":{\"name\":\"r2\"}}]",
    "poll",
    "commit [{\"update\":\"user\",\"key\":{\"id\":1},\"set\":{\"name\":\"r3\"}}]",
    "poll",
    "commit [{\"update\":\"user\",\"key\":{\"id\":1},\"set\":{\"name\":\"r4\"}}]",
    "poll",
    "commit [{\"update\":\"user\",\"key\":{\"id\":1},\"set\":{\"name\":\"r5\"}}]",
    "poll",
    "commit [{\"update\":\"user\",\"key\":{\"id\":1},\"set\":{\"name\":\"r6\"}}]",
    "poll",
    "commit [{\"update\":\"user\",\"key\":{\"id\":1},\"set\":{\"name\":\"r7\"}}]",
    "poll",
    "commit [{\"update\":\"user\",\"key\":{\"id\":1},\"set\":{\"name\":\"r8\"}}]",
    "poll",
    "commit [{\"update\":\"user\",\"key\":{\"id\":1},\"set\":{\"name\":\"r9\"}}]",
    "poll",
    "commit [{\"update\":\"user\",\"key\":{\"id\":1},\"set\":{\"name\":\"r10\"}}]",
    "poll",
    "report",
];

// Written by hand from the rules of the script.
#[test]
fn the_script_of_one_subscriber(rt: HostRuntime) -> Result<(), Fail> {
    let alloc = rt.alloc();
    let mut expected = String::new(alloc);
    for line in OF_ONE {
        expected.push_str(line)?;
        expected.push_str("\n")?;
    }
    assert_eq!(rt; load_script(alloc, 1)?.as_slice(), expected.as_bytes());
    Ok(())
}

// The lines are counted from the rules: six of metadata, one of inserts, three for each subscriber, a poll, two for each
// round and a report. The bytes and the last lines are those of a script that another program makes.
#[test]
fn scripts_of_more_subscribers(rt: HostRuntime) -> Result<(), Fail> {
    for (n, lines, bytes) in [(7, 50, 2400), (100, 329, 23_698), (1000, 3029, 235_206)] {
        let script = load_script(rt.alloc(), n)?;
        assert_eq!(rt; script.as_slice().len(), bytes);
        assert_eq!(rt;
            script
                .as_slice()
                .iter()
                .filter(|byte| **byte == b'\n')
                .count(),
            lines
        );
    }
    Ok(())
}

// The digests are those of `sha256sum`.
#[test]
fn transcripts_are_summed_up(rt: HostRuntime) -> Result<(), Fail> {
    for (n, transcript, line) in [
        (
            7,
            "",
            "load 7 lines 0 sha256 e3b0c44298fc1c149afbf4c8996fb92427ae41e4649b934ca495991b7852b855\n",
        ),
        (
            1000,
            "open 1\n",
            "load 1000 lines 1 sha256 6f49e8c09ee4982e28aca1930ef2d1dd4f90698e869e29e4b466a42b06507dcc\n",
        ),
    ] {
        let got = summary_line(rt.alloc(), n, transcript.as_bytes())?;
        assert_eq!(rt; got.as_slice(), line.as_bytes());
    }
    Ok(())
}
