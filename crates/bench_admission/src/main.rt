//! Admission of a usual subscription, many times. With the word `time` it measures them, else it admits a few and prints
//! how many.
#![tactic(auto)]

mod work;

use std::time::{Clock, Instant};
use std::{env, io};
use work::{Client, Fault, admit_times, usual_client};

/// How often the request is admitted.
const FEW: u32 = 10;

const MANY: u32 = 100_000;

/// Why a run ends early.
#[derive(Debug, Drop)]
enum Stop {
    Fault(Fault),
    Io(io::Error),
}

impl From<Fault> for Stop {
    fn from(fault: Fault) -> Stop {
        Stop::Fault(fault)
    }
}

impl From<io::Error> for Stop {
    fn from(error: io::Error) -> Stop {
        Stop::Io(error)
    }
}

fn run<R: Print + Clock + Alloc<A = std::alloc::Global>>(
    rt: &R,
    times: u32,
    timed: bool,
) -> Result<(), Stop> {
    let alloc = rt.alloc();
    let client: Client = usual_client(alloc)?;
    let start = Instant::now(rt)?;
    admit_times(alloc, &client, times)?;
    if timed {
        let micros = start.elapsed(rt)?.as_micros();
        println!(rt; "{times} requests admitted: {micros} microseconds")?;
    } else {
        println!(rt; "{times} requests admitted")?;
    }
    Ok(())
}

fn main(rt: HostRuntime) -> io::Result<()> {
    let timed = env::args(&rt)?.nth(1).is_some();
    let times = if timed { MANY } else { FEW };
    match run::<HostRuntime>(&rt, times, timed) {
        Ok(()) => Ok(()),
        Err(Stop::Io(error)) => Err(error),
        Err(Stop::Fault(Fault::NoMemory)) => println!(rt; "no memory"),
        Err(Stop::Fault(Fault::Refused)) => println!(rt; "refused"),
    }
}
