ghost use Rattle.std.specs.Prelude.{IfOk};
ghost use Rattle.serve_words.specs.Words.{IsInRange};

use crate::words::{MOST_WORKERS, ServeWords, USUAL_WORKERS, WordsFault};
use clap::error::ErrorKind;
use clap::{Arg, ArgAction, Command, value_parser};
use std::alloc::{AllocError, Global};

/// What words ask for that `clap` takes. The first word is to it the program's name.
pub fn read_by_clap(alloc: Global, words: &[String]) -> Result<ServeWords, WordsFault>
    ensures { IfOk result IsInRange }
{
    let Some(first) = words.first() else {
        return Err(WordsFault::Usage);
    };
    if first.as_str() != "serve" {
        return Err(WordsFault::Usage);
    }
    let Ok(command) = command(alloc) else {
        return Err(WordsFault::NoMemory);
    };
    match command.try_get_matches_from(words) {
        Ok(matches) => within_range(
            matches.get_one::<u16>("port"),
            matches.get_one::<u16>("commit-port"),
            matches.get_one::<u16>("workers"),
        ),
        Err(error) => match error.kind() {
            ErrorKind::OutOfMemory => Err(WordsFault::NoMemory),
            _ => Err(WordsFault::Usage),
        },
    }
}

fn command<'a>(alloc: Global) -> Result<Command<'a>, AllocError> {
    let port = option(alloc, "port", u16::MAX).required(true);
    let commit_port = option(alloc, "commit-port", u16::MAX).required(true);
    let workers = option(alloc, "workers", MOST_WORKERS);
    Command::new(alloc, "serve")
        .arg(port)?
        .arg(commit_port)?
        .arg(workers)
}

/// An option of two words, the second of which is a number from 1 to the last one.
fn option<'a>(alloc: Global, name: &'a str, last: u16) -> Arg<'a> {
    Arg::new(alloc, name)
        .long(name)
        .action(ArgAction::Set)
        .value_parser(value_parser!(u16).range(1..=i64::from(last)))
}

/// The numbers, where both ports are there and each number is in range.
fn within_range(
    port: Option<u16>,
    commit_port: Option<u16>,
    workers: Option<u16>,
) -> Result<ServeWords, WordsFault>
    ensures { IfOk result IsInRange }
{
    let workers = workers.unwrap_or(USUAL_WORKERS);
    match (port, commit_port) {
        (Some(port), Some(commit_port))
            if port > 0 && commit_port > 0 && (1..=MOST_WORKERS).contains(&workers) => {
            Ok(ServeWords {
                port,
                commit_port,
                workers,
            })
        }
        _ => Err(WordsFault::Usage),
    }
}
