//! The threads and their turns.
ghost use Rattle.std.specs.Prelude.{◌≡◌, ◌++◌, [], ◌∷◌, false};

use crate::count::{Count, OneTurn};
use history_lock::{HistoryLock, Pass, Spent};
use scalar_val::NoMemory;
use std::alloc::{AllocError, AllocFailed, Global};
use std::sync::Wait;
use std::thread;
use std::thread::Threads;
use std::time::{Clock, Duration};

/// Why there is no number of entries.
#[derive(Debug, Drop)]
pub enum Fault {
    /// Memory was refused.
    NoMemory,
    /// The lock has no turns left.
    Spent,
}

impl From<NoMemory> for Fault {
    fn from(_error: NoMemory) -> Fault {
        Fault::NoMemory
    }
}

impl From<AllocError> for Fault {
    fn from(_error: AllocError) -> Fault {
        Fault::NoMemory
    }
}

impl<T: Drop> From<AllocFailed<T>> for Fault {
    fn from(_error: AllocFailed<T>) -> Fault {
        Fault::NoMemory
    }
}

impl From<Spent> for Fault {
    fn from(_error: Spent) -> Fault {
        Fault::Spent
    }
}

/// What the threads do.
#[derive(Clone, Copy)]
pub struct Load {
    /// How many threads there are.
    pub threads: u64,
    /// How many turns each of them takes.
    pub turns: u64,
    /// How many milliseconds each rests after a turn.
    pub rest: u64,
    /// Where it isn't 0, one more thread holds each of its turns for so many milliseconds.
    pub held: u64,
}

// What one thread does: it takes so many turns by a pass of its own.
#[derive(Drop)]
struct Work<'a> {
    lock: &'a HistoryLock<Count>,
    pass: Pass<Count>,
    turns: u64,
    rest: u64,
    held: u64,
    ghost ours: { (pass.lock ≡ lock.now) × (pass.has_turn ≡ false) },
}

impl<'a> Work<'a> {
    fn new(lock: &'a HistoryLock<Count>, pass: Pass<Count>, load: &Load, held: u64) -> Work<'a>
        requires { (pass.lock ≡ lock.now) × (pass.has_turn ≡ false) }
        ensures { result.lock.now ≡ lock.now }
    {
        Work {
            lock,
            pass,
            turns: load.turns,
            rest: load.rest,
            held,
        }
    }

    fn run<R: Wait + Clock>(self, rt: &R) -> Result<(), Spent> {
        let Work {
            lock,
            mut pass,
            turns,
            rest,
            held,
        } = self;
        for _ in 0..turns {
            take_turn(rt, lock, &mut pass, held)?;
            sleep_for(rt, rest);
        }
        Ok(())
    }
}

fn sleep_for<R: Clock>(rt: &R, millis: u64) {
    if millis > 0 {
        thread::sleep(rt, Duration::from_millis(millis));
    }
}

// One turn. It answers how many turns there were before.
fn take_turn<R: Wait + Clock>(
    rt: &R,
    lock: &HistoryLock<Count>,
    pass: &mut Pass<Count>,
    held: u64,
) -> Result<u64, Spent>
    requires { (pass.old.lock ≡ lock.now) × (pass.old.has_turn ≡ false) }
    ensures { pass.new ≡ record pass.old { seen = pass.new.seen } }
{
    let mut turn = lock.turn(rt, pass)?;
    sleep_for(rt, held);
    let count = turn.state();
    let before = count.turns;
    count.turns += 1;
    lock.give::<OneTurn>(pass, turn);
    Ok(before)
}

// A work for each thread.
fn works<'a>(
    alloc: Global,
    lock: &'a HistoryLock<Count>,
    pass: &mut Pass<Count>,
    load: &Load,
) -> Result<Vec<Work<'a>>, Fault>
    requires { (pass.old.lock ≡ lock.now) × (pass.old.has_turn ≡ false) }
    ensures { (pass.new.lock ≡ pass.old.lock) × (pass.new.has_turn ≡ false) }
{
    let mut works = Vec::new(alloc);
    for _ in 0..load.threads {
        let own = lock.split(pass)?;
        works.push(Work::new(lock, own, load, 0))?;
    }
    if load.held > 0 {
        let own = lock.split(pass)?;
        works.push(Work::new(lock, own, load, load.held))?;
    }
    Ok(works)
}

/// How many entries the history has after the threads took their turns.
pub fn entries_after<R: Threads + Wait + Sync + Clock>(
    rt: &R,
    alloc: Global,
    load: &Load,
) -> Result<u64, Fault> {
    let (lock, mut pass) = HistoryLock::new(alloc, Count { turns: 0 })?;
    let works = works(alloc, &lock, &mut pass, load)?;
    for done in thread::map_vec(rt, works, &|work: Work| work.run(rt))? {
        done?;
    }
    Ok(take_turn(rt, &lock, &mut pass, 0)?)
}
