ghost use Rattle.std.specs.Prelude.{◌≡◌, ◌≤◌, false, IfOk};

use crate::{CommitEnd, serve_commits};
use outside::{MemSink, MemSource};
use role_schema::Meta;
use std::alloc::Global;
use std::sync::Wait;
use std::test::Fail;
use subs_engine::{Engine, Pass};

const METADATA: &str = "version = 1
[[tables]]
name = \"user\"
key = [\"id\"]
columns = [{ name = \"id\", type = \"int\" }, { name = \"name\", type = \"text\", nullable = true }]
";

/// Three lines, and a rest without a line end.
const LINES: &str = "[]
x
[{\"insert\":\"user\",\"row\":{\"id\":1}},{\"insert\":\"user\",\"row\":{\"id\":2}},\
{\"insert\":\"user\",\"row\":{\"id\":1}}]
[]";

const ANSWERS: &str = "commit 1\nbad\nrefused 3 KeyTaken\n";

fn start(alloc: Global) -> Result<(Engine, Pass), Fail>
    ensures { IfOk result (λ started. (started.1.lock ≡ started.0) × (started.1.has_turn ≡ false)) }
{
    match Meta::read(alloc, METADATA.as_bytes()) {
        Ok(meta) => Ok(Engine::new(alloc, meta)?),
        Err(_fault) => Err(Fail::from("the metadata isn't read")),
    }
}

/// How serving these bytes ends, and what is written.
fn serve<R: Wait>(
    rt: &R,
    alloc: Global,
    bytes: Vec<u8>,
    piece: usize,
    failing_reads: Vec<u64>,
    failing_writes: Vec<u64>,
) -> Result<(CommitEnd, Vec<u8>), Fail>
    requires { 1 ≤ piece }
{
    let (engine, mut pass) = start(alloc)?;
    let mut source = MemSource::new(bytes, piece, failing_reads);
    let mut sink = MemSink::new(alloc, failing_writes);
    let end = serve_commits(rt, alloc, &engine, &mut pass, &mut source, &mut sink);
    Ok((end, sink.as_slice().to_vec(alloc)?))
}

fn lines(alloc: Global) -> Result<Vec<u8>, Fail> {
    Ok(LINES.as_bytes().to_vec(alloc)?)
}

#[test]
fn each_line_is_answered_in_order(rt: HostRuntime) -> Result<(), Fail> {
    let alloc = rt.alloc();
    for piece in [1usize, 7, 4096] {
        let (end, written) = serve(
            &rt,
            alloc,
            lines(alloc)?,
            piece,
            Vec::new(alloc),
            Vec::new(alloc),
        )?;
        assert_eq!(&rt; end, CommitEnd::Ended);
        assert_eq!(&rt; written.as_slice(), ANSWERS.as_bytes());
    }
    Ok(())
}

#[test]
fn a_fault_ends_it(rt: HostRuntime) -> Result<(), Fail> {
    let alloc = rt.alloc();
    let reads = vec![in alloc; 2]?;
    let (end, written) = serve(&rt, alloc, lines(alloc)?, 3, reads, Vec::new(alloc))?;
    assert_eq!(&rt; end, CommitEnd::SourceFault);
    assert_eq!(&rt; written.as_slice(), b"commit 1\n".as_slice());
    let writes = vec![in alloc; 2]?;
    let (end, written) = serve(&rt, alloc, lines(alloc)?, 3, Vec::new(alloc), writes)?;
    assert_eq!(&rt; end, CommitEnd::SinkFault);
    assert_eq!(&rt; written.as_slice(), b"commit 1\n".as_slice());
    Ok(())
}
