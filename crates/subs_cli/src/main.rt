//! The program: it makes the real ends, hands them to the top call of its command, and ends with that call's status.
#![tactic(auto)]

ghost use Rattle.std.specs.Prelude.{◌≡◌};

mod bell_gate;
mod serve;

use outside::{StdSink, StdSource};
use scalar_val::Steps;
use serve::serve;
use std::io::ErrorKind;
use std::marker::Brand;
use std::process::ExitCode;
use std::sync::ledger::{Blank, Ledger};
use std::{env, io};
use subs_run::run_main;

/// The status where memory is refused before the top call is reached.
const NO_MEMORY: u8 = 4;

fn main(rt: HostRuntime) -> ExitCode {
    match words(&rt) {
        Ok(words) if asks_to_serve(words.as_slice()) => {
            ExitCode::from(serve(&rt, rt.alloc(), words.as_slice(), rt.reader()))
        }
        Ok(words) => ExitCode::from(run::<Brand>(&rt, words.as_slice(), Blank::new(1))),
        // No command has a word that isn't UTF-8, and none has no word.
        Err(error) => match error.kind() {
            ErrorKind::InvalidData => ExitCode::from(run::<Brand>(&rt, &[], Blank::new(1))),
            _ => ExitCode::from(NO_MEMORY),
        },
    }
}

/// The words after the program's name. One that isn't UTF-8 is an error of the kind `InvalidData`.
fn words(rt: &HostRuntime) -> io::Result<Vec<String>> {
    let mut words = Vec::new(rt.alloc());
    for word in env::args(rt)?.skip(1) {
        words.push(word)?;
    }
    Ok(words)
}

fn asks_to_serve(words: &[String]) -> bool {
    words.first().is_some_and(|word| word.as_str() == "serve")
}

/// Runs the top call of all other commands over the standard input and output. Nothing reads the counter of steps.
fn run<L: Ledger>(rt: &HostRuntime, words: &[String], blank: Blank) -> u8
    requires name { blank.name ≡ L.name }
    requires parts { blank.parts ≡ L.parts }
    requires one { blank.parts ≡ 1 }
{
    let mut source = StdSource::new(rt.reader());
    let mut sink = StdSink::new(io::writer(rt));
    let mut steps = Steps::<L>::new(blank);
    run_main(rt.alloc(), words, &mut source, &mut sink, &mut steps)
}
