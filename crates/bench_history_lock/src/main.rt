//! Turns of a history lock by many threads. Without words it makes a few and prints how many the history has. With the
//! words THREADS TURNS REST HELD it prints how long so many threads take for so many turns each, where each rests for
//! REST milliseconds after a turn, and, where HELD isn't 0, one more thread holds each of its turns for HELD ms.
#![tactic(auto)]

mod count;
mod work;

use std::sync::Wait;
use std::thread::Threads;
use std::time::{Clock, Instant};
use std::{env, io};
use work::{Fault, Load, entries_after};

/// Turns of each thread where no time is measured.
const FEW: u64 = 1_000;

// How many times this is in a second.
fn per_second(turns: u64, nanos: u128) -> u128 {
    u128::from(turns) * 1_000_000_000 / nanos.max(1)
}

fn check<R: Threads + Wait + Sync + Print + Clock + Alloc<A = std::alloc::Global>>(
    rt: &R,
    load: &Load,
) -> io::Result<()> {
    match entries_after(rt, rt.alloc(), load) {
        Ok(entries) => println!(rt; "threads {}, entries {entries}", load.threads),
        Err(Fault::NoMemory) => println!(rt; "no memory"),
        Err(Fault::Spent) => println!(rt; "no turns left"),
    }
}

fn measure<R: Threads + Wait + Sync + Print + Clock + Alloc<A = std::alloc::Global>>(
    rt: &R,
    load: &Load,
) -> io::Result<()> {
    let start = Instant::now(rt)?;
    match entries_after(rt, rt.alloc(), load) {
        Ok(entries) => {
            let nanos = start.elapsed(rt)?.as_nanos();
            let (millis, rate) = (nanos / 1_000_000, per_second(entries, nanos));
            println!(rt; "turns {entries}, milliseconds {millis}, per second {rate}")
        }
        Err(Fault::NoMemory) => println!(rt; "no memory"),
        Err(Fault::Spent) => println!(rt; "no turns left"),
    }
}

fn main(rt: HostRuntime) -> io::Result<()> {
    let mut words = [0; 4];
    for (at, word) in env::args(&rt)?.skip(1).take(4).enumerate() {
        words[at] = word.as_str().parse::<u64>().unwrap_or(0);
    }
    let [threads, turns, rest, held] = words;
    if threads > 0 {
        return measure(
            &rt,
            &Load {
                threads,
                turns,
                rest,
                held,
            },
        );
    }
    for threads in [1, 2, 4] {
        check(
            &rt,
            &Load {
                threads,
                turns: FEW,
                rest: 0,
                held: 0,
            },
        )?;
    }
    Ok(())
}
