//! Calls of the map of cohorts. With the word `time` it measures many of them, else it runs a few and prints how many.
#![tactic(auto)]

mod work;

use cohort_map::{CohortMap, MemberList};
use scalar_val::NoMemory;
use std::alloc::Global;
use std::time::{Clock, Instant};
use std::{env, io};
use work::{join_all, move_all};

/// How many subscriptions there are, how many values and pollers they are of, how often a batch is chosen, opened and
/// closed, and of how many subscriptions the cohorts are asked for.
#[derive(Clone, Copy)]
struct Sizes {
    subs: u32,
    values: u32,
    pollers: u32,
    times: u64,
    looks: u32,
}

const FEW: [Sizes; 1] = [Sizes {
    subs: 100,
    values: 100,
    pollers: 1,
    times: 1,
    looks: 2,
}];

const MANY: [Sizes; 8] = [
    Sizes {
        subs: 100,
        values: 100,
        pollers: 1,
        times: 1000,
        looks: 100,
    },
    Sizes {
        subs: 10_000,
        values: 10_000,
        pollers: 1,
        times: 1000,
        looks: 10_000,
    },
    Sizes {
        subs: 1_000_000,
        values: 1_000_000,
        pollers: 1,
        times: 1000,
        looks: 10_000,
    },
    Sizes {
        subs: 100_000,
        values: 10,
        pollers: 1,
        times: 1,
        looks: 10,
    },
    Sizes {
        subs: 100_000,
        values: 100_000,
        pollers: 1,
        times: 1000,
        looks: 10_000,
    },
    Sizes {
        subs: 100,
        values: 1,
        pollers: 100,
        times: 1000,
        looks: 100,
    },
    Sizes {
        subs: 10_000,
        values: 1,
        pollers: 10_000,
        times: 1000,
        looks: 10_000,
    },
    Sizes {
        subs: 1_000_000,
        values: 1,
        pollers: 1_000_000,
        times: 1000,
        looks: 10_000,
    },
];

/// Why a run ends early.
#[derive(Debug, Drop)]
enum Stop {
    NoMemory,
    Io(io::Error),
}

impl From<NoMemory> for Stop {
    fn from(_: NoMemory) -> Stop {
        Stop::NoMemory
    }
}

impl From<io::Error> for Stop {
    fn from(error: io::Error) -> Stop {
        Stop::Io(error)
    }
}

fn report<R: Print + Clock>(
    rt: &R,
    what: &str,
    count: u64,
    start: &Instant,
    timed: bool,
) -> io::Result<()> {
    if timed {
        let micros = start.elapsed(rt)?.as_micros();
        println!(rt; "{count} {what}: {micros} microseconds")
    } else {
        println!(rt; "{count} {what}")
    }
}

/// The next batch, chosen so many times over; its members stand for the last one.
fn choose(alloc: Global, map: &CohortMap, times: u64) -> Result<MemberList, NoMemory> {
    let mut members = map.batch(alloc, 100)?;
    for _ in 1..times {
        members = map.batch(alloc, 100)?;
    }
    Ok(members)
}

fn open_all(map: &mut CohortMap, members: &MemberList, times: u64) {
    for job in 0..times {
        map.open_job(job, members);
    }
}

fn close_all(map: &mut CohortMap, times: u64) {
    for job in 0..times {
        map.close_job(job, false);
    }
}

/// Takes batches of a hundred cohorts until nobody is due, and closes each. It gives how many there were.
fn poll(alloc: Global, map: &mut CohortMap, most: u64) -> Result<u64, NoMemory> {
    for job in 0..most {
        let members = map.batch(alloc, 100)?;
        if members.is_empty() {
            return Ok(job);
        }
        map.open_job(job, &members);
        map.close_job(job, false);
    }
    Ok(most)
}

/// The members of the cohorts of so many subscriptions, and how many of these are busy.
fn look(alloc: Global, map: &CohortMap, count: u32) -> Result<u64, NoMemory> {
    let mut found = 0u64;
    for number in 0..count {
        found = found.saturating_add(map.members(alloc, number as u64 + 1)?.len() as u64);
    }
    Ok(found)
}

fn count_busy(map: &CohortMap, count: u32) -> u64 {
    let mut busy = 0u64;
    for number in 0..count {
        if map.busy(number as u64 + 1) {
            busy = busy.saturating_add(1);
        }
    }
    busy
}

fn leave_all(map: &mut CohortMap, count: u32) -> u64 {
    let mut left = 0u64;
    for number in 0..count {
        if map.leave(number as u64 + 1) {
            left = left.saturating_add(1);
        }
    }
    left
}

/// The calls that look at batches, jobs and cohorts.
fn run_jobs<R: Print + Clock + Alloc<A = Global>>(
    rt: &R,
    map: &mut CohortMap,
    sizes: Sizes,
    timed: bool,
) -> Result<(), Stop> {
    let alloc = rt.alloc();
    let start = Instant::now(rt)?;
    let members = choose(alloc, map, sizes.times)?;
    report(rt, "batches chosen", sizes.times, &start, timed)?;
    let start = Instant::now(rt)?;
    open_all(map, &members, sizes.times);
    report(rt, "jobs opened", sizes.times, &start, timed)?;
    let start = Instant::now(rt)?;
    close_all(map, sizes.times);
    report(rt, "jobs closed", sizes.times, &start, timed)?;
    let start = Instant::now(rt)?;
    let batches = poll(alloc, map, sizes.subs as u64)?;
    report(rt, "batches of the rest", batches, &start, timed)?;
    let start = Instant::now(rt)?;
    let members = look(alloc, map, sizes.looks)?;
    report(rt, "members found", members, &start, timed)?;
    let start = Instant::now(rt)?;
    let busy = count_busy(map, sizes.looks);
    report(rt, "busy", busy, &start, timed)?;
    Ok(())
}

#[tactic(auto, using(stream_cursor::proofs::Examples::empty_streams))]
fn run<R: Print + Clock + Alloc<A = Global>>(
    rt: &R,
    sizes: Sizes,
    timed: bool,
) -> Result<(), Stop> {
    let alloc = rt.alloc();
    let mut map = CohortMap::new(alloc);
    println!(rt; "{} values, {} pollers", sizes.values, sizes.pollers)?;
    let start = Instant::now(rt)?;
    join_all(alloc, &mut map, sizes.subs, sizes.values, sizes.pollers)?;
    report(rt, "joins", sizes.subs as u64, &start, timed)?;
    let start = Instant::now(rt)?;
    move_all(alloc, &mut map, sizes.subs)?;
    report(rt, "moves by one call", sizes.subs as u64, &start, timed)?;
    let start = Instant::now(rt)?;
    let due = map.tick();
    report(rt, "due at a tick", due, &start, timed)?;
    run_jobs(rt, &mut map, sizes, timed)?;
    let start = Instant::now(rt)?;
    let left = leave_all(&mut map, sizes.subs);
    report(rt, "ends", left, &start, timed)?;
    Ok(())
}

fn run_each<R: Print + Clock + Alloc<A = Global>>(
    rt: &R,
    sizes: &[Sizes],
    timed: bool,
) -> Result<(), Stop> {
    for one in sizes {
        run(rt, *one, timed)?;
    }
    Ok(())
}

fn main(rt: HostRuntime) -> io::Result<()> {
    let timed = env::args(&rt)?.nth(1).is_some();
    let sizes = if timed {
        MANY.as_slice()
    } else {
        FEW.as_slice()
    };
    match run_each(&rt, sizes, timed) {
        Ok(()) => Ok(()),
        Err(Stop::Io(error)) => Err(error),
        Err(Stop::NoMemory) => println!(rt; "no memory"),
    }
}
