mod asking;
mod two_ends;

use crate::{ServeWork, Task, serve_main};
use outside::{MemLink, MemListener, MemSink, MemSource, MemSpawner, SysClock};
use std::alloc::Global;
use std::sync::Wait;
use std::test::Fail;
use subs_engine::FreeGate;

const METADATA: &str = r#"version = 1
[[tables]]
name = "user"
key = ["id"]
columns = [{ name = "id", type = "int" }, { name = "name", type = "text", nullable = true }]
array = [{ name = "posts", table = "post", from = ["id"], to = ["author_id"] }]
select = [{ role = "reader", columns = ["id", "name"], filter = "{}" }]
[[tables]]
name = "post"
key = ["id"]
columns = [{ name = "id", type = "int" }, { name = "author_id", type = "int", nullable = true },
  { name = "title", type = "text" }, { name = "note", type = "text", nullable = true }]
object = [{ name = "author", table = "user", from = ["author_id"], to = ["id"] }]
select = [{ role = "reader", columns = ["id", "author_id", "title"],
  filter = '{"author_id":{"_eq":"X-Hasura-User-Id"}}' }]
"#;

const VALID: &str = "serve --port 8080 --commit-port 8081";

type Pair = (MemSource, MemSink);

type Started = ServeWork<MemLink, MemListener<Pair>, SysClock<HostRuntime>, FreeGate>;

fn words_of(alloc: Global, line: &str) -> Result<Vec<String>, Fail> {
    let mut words = Vec::new(alloc);
    for word in line.split(' ') {
        words.push(String::from_str(alloc, word)?)?;
    }
    Ok(words)
}

/// A line for each work.
fn lines_of(alloc: Global, started: &[Started]) -> Result<String, Fail> {
    let mut lines = String::new(alloc);
    for work in started {
        let line = match &work.task {
            Task::Conn { conn, .. } => format!(in alloc; "conn {conn}\n")?,
            Task::Commits { .. } => format!(in alloc; "commits\n")?,
            Task::Poll {
                ticks,
                refetch_ms,
                ..
            } => format!(in alloc; "poll {ticks} {refetch_ms}\n")?,
        };
        lines.push_str(line.as_str())?;
    }
    Ok(lines)
}

/// The status of a run with so many links to come, and a line for each work that it started.
fn serve<R: Wait>(
    rt: &R,
    alloc: Global,
    clock: SysClock<HostRuntime>,
    line: &str,
    links: usize,
    failing: Vec<u64>,
    failing_starts: Vec<u64>,
) -> Result<(u8, String), Fail> {
    let words = words_of(alloc, line)?;
    let mut meta = MemSource::new(METADATA.as_bytes().to_vec(alloc)?, 7, Vec::new(alloc));
    let mut coming = Vec::new(alloc);
    for _ in 0..links {
        coming.push(MemLink::new(alloc, Vec::new(alloc), Vec::new(alloc)))?;
    }
    let mut sockets = MemListener::new(coming, failing);
    let mut commits = Some(MemListener::<Pair>::new(Vec::new(alloc), Vec::new(alloc)));
    let mut spawner = MemSpawner::<Started>::new(alloc, 10, failing_starts)?;
    let status = serve_main(
        rt,
        alloc,
        words.as_slice(),
        &mut meta,
        &mut sockets,
        &mut commits,
        &mut spawner,
        clock,
        FreeGate,
    );
    Ok((status, lines_of(alloc, spawner.started())?))
}

#[test]
fn works_are_started_in_their_order(rt: HostRuntime) -> Result<(), Fail> {
    let alloc = rt.alloc();
    let clock = SysClock::new(rt);
    let polls = "poll true 1000\npoll false 1000\n";
    let (status, lines) = serve(
        &rt,
        alloc,
        clock,
        VALID,
        0,
        Vec::new(alloc),
        Vec::new(alloc),
    )?;
    assert_eq!(&rt; status, 0);
    assert_eq!(&rt;
        lines.as_str(),
        format!(in alloc; "{polls}commits\n")?.as_str()
    );
    let (status, lines) = serve(
        &rt,
        alloc,
        clock,
        VALID,
        1,
        Vec::new(alloc),
        Vec::new(alloc),
    )?;
    assert_eq!(&rt; status, 0);
    assert_eq!(&rt;
        lines.as_str(),
        format!(in alloc; "{polls}commits\nconn 1\n")?.as_str()
    );
    Ok(())
}

#[test]
fn each_fault_has_its_status(rt: HostRuntime) -> Result<(), Fail> {
    let alloc = rt.alloc();
    let clock = SysClock::new(rt);
    let zero = "serve --port 0 --commit-port 1";
    let (status, lines) = serve(&rt, alloc, clock, zero, 0, Vec::new(alloc), Vec::new(alloc))?;
    assert_eq!(&rt; (status, lines.as_str()), (5, ""));
    let (status, lines) = serve(
        &rt,
        alloc,
        clock,
        VALID,
        0,
        vec![in alloc; 1]?,
        Vec::new(alloc),
    )?;
    assert_eq!(&rt; (status, lines.as_str()), (6, ""));
    let (status, lines) = serve(
        &rt,
        alloc,
        clock,
        VALID,
        0,
        Vec::new(alloc),
        vec![in alloc; 1]?,
    )?;
    assert_eq!(&rt; (status, lines.as_str()), (7, ""));
    Ok(())
}
