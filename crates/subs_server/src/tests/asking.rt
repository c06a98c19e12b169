//! Connections to the commit port that compare what they are answered, and works on one engine.
ghost use Rattle.std.specs.Prelude.{◌≡◌, false, None, ⊤, IfOk};

use crate::tests::METADATA;
use crate::{PortEnd, ServeWork, Task, TaskEnd, Worked};
use outside::{ListClock, MemLink, MemListener, MemSource, Parts, Put, Sink, Splits, Work};
use role_schema::Meta;
use scalar_val::{NoMemory, Steps};
use std::alloc::Global;
use std::sync::atomic::{AtomicU64, Ordering};
use std::sync::ledger::Ledger;
use std::sync::{Arc, Wait};
use std::test::Fail;
use subs_engine::{Engine, FreeGate, Gate, Job, OutcomeList, Pass};

/// What a byte counts that isn't wanted.
const WRONG: u64 = 1_000_000;

/// Where the answers to a connection go: each byte that is wanted at its place counts 1.
#[derive(Drop)]
pub struct Answers {
    wanted: &'static str,
    at: usize,
    met: Arc<AtomicU64, Global>,
}

impl Answers {
    fn take(&mut self, byte: u8) {
        let is_wanted = self.wanted.as_bytes().get(self.at) == Some(&byte);
        self.met
            .fetch_add(if is_wanted { 1 } else { WRONG }, Ordering::SeqCst);
        self.at = self.at.saturating_add(1);
    }
}

impl Sink for Answers {
    ghost written = { λ _. None };

    ghost faults = { λ _. 0 };

    ghost never_fails = { λ _. ⊤ };

    fn write(&mut self, bytes: &[u8]) -> Put {
        for byte in bytes {
            self.take(*byte);
        }
        Put::Bytes(bytes.len())
    }
}

/// A connection that sends its bytes.
#[derive(Drop)]
pub struct Asking {
    source: MemSource,
    answers: Answers,
}

impl Splits for Asking {
    type Source = MemSource;

    type Sink = Answers;

    ghost left = { λ _. None };

    ghost written = { λ _. None };

    ghost never_fails = { λ _. ⊥ };

    fn split(self) -> Parts<MemSource, Answers> {
        let Asking { source, answers } = self;
        Parts::Both(source, answers)
    }
}

/// A gate that stops its worker where nothing more is to be evaluated.
#[derive(Clone, Copy)]
pub struct OneRun;

impl Gate for OneRun {
    type Stop = ();

    fn batch<R: Wait, L: Ledger>(
        &self,
        rt: &R,
        alloc: Global,
        job: &Job,
        steps: &mut Steps<L>,
    ) -> Result<OutcomeList, NoMemory> {
        FreeGate.batch(rt, alloc, job, steps)
    }

    fn stop(&self) -> Option<()> {
        Some(())
    }
}

pub type Beside = ServeWork<MemLink, MemListener<Asking>, ListClock, OneRun>;

pub type Doing = Task<MemLink, MemListener<Asking>, ListClock, OneRun>;

/// An engine that works share, and a pass of it.
pub fn start(alloc: Global) -> Result<(Arc<Engine, Global>, Pass), Fail>
    ensures { IfOk result (λ started. (started.1.lock ≡ started.0.value) × (started.1.has_turn ≡ false)) }
{
    let Ok(meta) = Meta::read(alloc, METADATA.as_bytes()) else {
        return Err(Fail::from("the metadata isn't read"));
    };
    let (engine, pass) = Engine::new(alloc, meta)?;
    Ok((Arc::new(alloc, engine)?, pass))
}

/// A work with a pass of its own.
pub fn beside(
    alloc: Global,
    engine: &Arc<Engine, Global>,
    pass: &mut Pass,
    task: Doing,
) -> Result<Beside, Fail>
    requires { (pass.old.lock ≡ engine.now.value) × (pass.old.has_turn ≡ false) }
    ensures { pass.new ≡ pass.old }
{
    let own = engine.split(pass)?;
    Ok(ServeWork {
        alloc,
        engine: Arc::try_clone(engine)?,
        pass: own,
        task,
    })
}

/// A task that serves the commit port to connections, each of which sends its bytes and wants its answers.
pub fn commits(
    alloc: Global,
    met: &Arc<AtomicU64, Global>,
    asked: &[(&'static str, &'static str)],
) -> Result<Doing, Fail> {
    let mut conns = Vec::new(alloc);
    for (bytes, wanted) in asked {
        let answers = Answers {
            wanted: *wanted,
            at: 0,
            met: Arc::try_clone(met)?,
        };
        let source = MemSource::new(bytes.as_bytes().to_vec(alloc)?, 7, Vec::new(alloc));
        conns.push(Asking { source, answers })?;
    }
    Ok(Task::Commits {
        from: MemListener::new(conns, Vec::new(alloc)),
    })
}

/// Whether a port that is asked so ends when no connection is left, and how many bytes of answers were wanted.
fn answered<R: Wait>(
    rt: &R,
    alloc: Global,
    asked: &[(&'static str, &'static str)],
) -> Result<(bool, u64), Fail> {
    let (engine, mut pass) = start(alloc)?;
    let met = Arc::new(alloc, AtomicU64::new(0))?;
    let work = beside(alloc, &engine, &mut pass, commits(alloc, &met, asked)?)?;
    let Worked { pass: _own, end } = work.run(rt);
    let is_ended = matches!(
        end,
        TaskEnd::Commits {
            end: PortEnd::Ended,
            ..
        }
    );
    Ok((is_ended, met.load(Ordering::SeqCst)))
}

#[test]
fn a_commit_port_that_is_given_three_lines_gives_three_answers(
    rt: HostRuntime,
) -> Result<(), Fail> {
    let three = [("[]\nx\n[]\n", "commit 1\nbad\ncommit 2\n")];
    assert_eq!(&rt; answered(&rt, rt.alloc(), &three)?, (true, 22));
    Ok(())
}

#[test]
fn the_commit_port_serves_one_connection_after_the_other(rt: HostRuntime) -> Result<(), Fail> {
    let two = [("[]\nx\n[", "commit 1\nbad\n"), ("[]\n", "commit 2\n")];
    assert_eq!(&rt; answered(&rt, rt.alloc(), &two)?, (true, 22));
    Ok(())
}
