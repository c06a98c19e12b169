//! The program again, for a stored run of the word `load`: a crate has one stored run, and that of `subs_cli` is a script.
#![tactic(auto)]

ghost use Rattle.std.specs.Prelude.{◌≡◌};

use outside::{StdSink, StdSource};
use scalar_val::Steps;
use std::io::ErrorKind;
use std::marker::Brand;
use std::process::ExitCode;
use std::sync::ledger::{Blank, Ledger};
use std::{env, io};
use subs_run::run_main;

/// The status where memory is refused before the top call is reached.
const NO_MEMORY: u8 = 4;

fn main(rt: HostRuntime) -> ExitCode {
    match words(&rt) {
        Ok(words) => ExitCode::from(run::<Brand>(&rt, words.as_slice(), Blank::new(1))),
        // No command has a word that isn't UTF-8, and none has no word.
        Err(error) => match error.kind() {
            ErrorKind::InvalidData => ExitCode::from(run::<Brand>(&rt, &[], Blank::new(1))),
            _ => ExitCode::from(NO_MEMORY),
        },
    }
}

/// The words after the program's name. One that isn't UTF-8 is an error of the kind `InvalidData`.
fn words(rt: &HostRuntime) -> io::Result<Vec<String>> {
    let mut words = Vec::new(rt.alloc());
    for word in env::args(rt)?.skip(1) {
        words.push(word)?;
    }
    Ok(words)
}

/// Runs the top call over the standard input and output. Nothing reads the counter of steps.
fn run<L: Ledger>(rt: &HostRuntime, words: &[String], blank: Blank) -> u8
    requires name { blank.name ≡ L.name }
    requires parts { blank.parts ≡ L.parts }
    requires one { blank.parts ≡ 1 }
{
    let mut source = StdSource::new(rt.reader());
    let mut sink = StdSink::new(io::writer(rt));
    let mut steps = Steps::<L>::new(blank);
    run_main(rt.alloc(), words, &mut source, &mut sink, &mut steps)
}
