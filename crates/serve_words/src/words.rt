ghost use Rattle.std.specs.Prelude.{◌≡◌, IfOk, map, string_bytes};
ghost use Rattle.serve_words.specs.Words.{IsInRange, IsValid};
ghost use Rattle.serve_words.specs.declared.words.ServeWords.{ServeWords as Asked};

use crate::by_clap::read_by_clap;
use crate::valid::read_valid;
use std::alloc::Global;

/// The largest number of workers that may be asked for.
pub(crate) const MOST_WORKERS: u16 = 16;

/// The number of workers where the words don't name one.
pub(crate) const USUAL_WORKERS: u16 = 2;

/// What the words of `serve` ask for.
#[derive(Clone, Copy, Debug, PartialEq, Eq)]
pub struct ServeWords {
    /// The port of the sockets, 1 to 65,535.
    pub port: u16,

    /// The port of the commits, 1 to 65,535.
    pub commit_port: u16,

    /// How many workers poll, 1 to 16.
    pub workers: u16,
}

/// Why the words ask for nothing.
#[derive(Clone, Copy, Debug, PartialEq, Eq)]
pub enum WordsFault {
    /// `clap` refuses the words, or the first isn't `serve`.
    Usage,

    NoMemory,
}

/// Reads the words of `serve`, which are those after the program's name. They are valid where after `serve` stand, in
/// any order and each once, `--port P`, `--commit-port Q` and, where wanted, `--workers W`, as two words each, with the
/// numbers in decimal without leading zeros. Without `--workers` there are 2. `clap` decides on all other words.
pub fn read_words(alloc: Global, words: &[String]) -> Result<ServeWords, WordsFault>
    ensures valid { (asked : Asked) → IsValid (map string_bytes words.now) asked → result ≡ Ok asked }
    ensures in_range { IfOk result IsInRange }
{
    // What `clap` promises is a function of its own rules, from which it doesn't follow without much ado that it takes
    // every valid line. So valid words are read here, and it is asked about the others alone.
    match read_valid(words) {
        Some(asked) => Ok(asked),
        None => read_by_clap(alloc, words),
    }
}
