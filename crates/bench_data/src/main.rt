//! Transactions over one table. With the word `time` it measures many of them, else it runs a few and prints how many.
#![tactic(auto)]

ghost use Rattle.std.specs.Prelude.{◌≡◌, ◌<◌};

mod work;

use row_store::Snapshot;
use scalar_val::{List, NoMemory, Steps};
use std::marker::Brand;
use std::sync::ledger::{Blank, Ledger};
use std::time::{Clock, Instant};
use std::{env, io};
use work::{Fault, commit, commits, inserts_text, name_column, renames_text, updates_text, users};

/// How many rows the first transaction inserts, and how many transactions of one insert there are.
#[derive(Clone, Copy)]
struct Sizes {
    rows: u32,
    commits: u32,
}

const FEW: Sizes = Sizes {
    rows: 100,
    commits: 20,
};

const MANY: Sizes = Sizes {
    rows: 10_000,
    commits: 2_000,
};

/// Why a run ends early.
#[derive(Debug, Drop)]
enum Stop {
    Fault(Fault),
    Io(io::Error),
}

impl From<Fault> for Stop {
    fn from(fault: Fault) -> Stop {
        Stop::Fault(fault)
    }
}

impl From<NoMemory> for Stop {
    fn from(_: NoMemory) -> Stop {
        Stop::Fault(Fault::NoMemory)
    }
}

impl From<io::Error> for Stop {
    fn from(error: io::Error) -> Stop {
        Stop::Io(error)
    }
}

fn report<R: Print + Clock>(
    rt: &R,
    what: &str,
    count: u32,
    start: &Instant,
    timed: bool,
) -> io::Result<()> {
    if timed {
        let micros = start.elapsed(rt)?.as_micros();
        println!(rt; "{count} {what}: {micros} microseconds")
    } else {
        println!(rt; "{count} {what}")
    }
}

fn run<R: Print + Clock + Alloc<A = std::alloc::Global>, L: Ledger>(
    rt: &R,
    sizes: Sizes,
    timed: bool,
    steps: &mut Steps<L>,
) -> Result<(), Stop> {
    let alloc = rt.alloc();
    let catalog = users(alloc, List::new(alloc))?;
    let empty = Snapshot::new(alloc, &catalog)?;
    let text = inserts_text(alloc, 0, sizes.rows)?;
    let start = Instant::now(rt)?;
    let filled = commit(alloc, &catalog, &empty, text.as_str(), steps)?;
    report(rt, "inserts in one transaction", sizes.rows, &start, timed)?;
    let text = updates_text(alloc, sizes.rows)?;
    let start = Instant::now(rt)?;
    let _named = commit(alloc, &catalog, &filled, text.as_str(), steps)?;
    report(
        rt,
        "updates by key in one transaction",
        sizes.rows,
        &start,
        timed,
    )?;
    let start = Instant::now(rt)?;
    commits(alloc, &catalog, empty, 0, sizes.commits, steps)?;
    report(
        rt,
        "transactions of one insert, from an empty table",
        sizes.commits,
        &start,
        timed,
    )?;
    let start = Instant::now(rt)?;
    commits(alloc, &catalog, filled, sizes.rows, sizes.commits, steps)?;
    report(
        rt,
        "transactions of one insert, from the filled table",
        sizes.commits,
        &start,
        timed,
    )?;
    Ok(())
}

/// So many inserts and updates in one transaction each, where names are unique.
fn run_unique<R: Print + Clock + Alloc<A = std::alloc::Global>, L: Ledger>(
    rt: &R,
    rows: u32,
    timed: bool,
    steps: &mut Steps<L>,
) -> Result<(), Stop> {
    let alloc = rt.alloc();
    let catalog = users(alloc, name_column(alloc)?)?;
    let empty = Snapshot::new(alloc, &catalog)?;
    let text = inserts_text(alloc, 0, rows)?;
    let start = Instant::now(rt)?;
    let filled = commit(alloc, &catalog, &empty, text.as_str(), steps)?;
    report(
        rt,
        "inserts with unique names in one transaction",
        rows,
        &start,
        timed,
    )?;
    let text = renames_text(alloc, rows)?;
    let start = Instant::now(rt)?;
    let _renamed = commit(alloc, &catalog, &filled, text.as_str(), steps)?;
    report(
        rt,
        "updates of unique names in one transaction",
        rows,
        &start,
        timed,
    )?;
    Ok(())
}

fn run_counted<R: Print + Clock + Alloc<A = std::alloc::Global>, L: Ledger>(
    rt: &R,
    sizes: Sizes,
    timed: bool,
    blank: Blank,
) -> Result<(), Stop>
    requires name { blank.name ≡ L.name }
    requires parts { blank.parts ≡ L.parts }
    requires some { 0 < blank.parts }
{
    let mut steps = Steps::<L>::new(blank);
    run(rt, sizes, timed, &mut steps)?;
    run_unique(rt, sizes.rows, timed, &mut steps)?;
    run_unique(rt, sizes.rows.saturating_mul(2), timed, &mut steps)
}

fn main(rt: HostRuntime) -> io::Result<()> {
    let timed = env::args(&rt)?.nth(1).is_some();
    let sizes = if timed { MANY } else { FEW };
    match run_counted::<HostRuntime, Brand>(&rt, sizes, timed, Blank::new(1)) {
        Ok(()) => Ok(()),
        Err(Stop::Io(error)) => Err(error),
        Err(Stop::Fault(Fault::NoMemory)) => println!(rt; "no memory"),
        Err(Stop::Fault(Fault::Refused)) => println!(rt; "refused"),
    }
}
