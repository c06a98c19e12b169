ghost use Rattle.std.specs.Prelude.{◌≡◌, IfSome, Some, map, option_map, string_bytes};
ghost use Rattle.serve_words.specs.Words.{IsInRange, IsValid};
ghost use Rattle.serve_words.specs.Options.{value_of};
ghost use Rattle.serve_words.specs.declared.words.ServeWords.{ServeWords as Asked};

use crate::number::read_number;
use crate::words::{MOST_WORKERS, ServeWords, USUAL_WORKERS};

/// What valid words ask for.
#[tactic(auto, using(crate::proofs::Shapes::valid_fits))]
pub fn read_valid(words: &[String]) -> Option<ServeWords>
    ensures valid { (asked : Asked) → IsValid (map string_bytes words.now) asked → result ≡ Some asked }
    ensures in_range { IfSome result IsInRange }
{
    let (command, options) = words.split_first()?;
    if command.as_str() != "serve" {
        return None;
    }
    let workers = match options.len() {
        4 => USUAL_WORKERS,
        6 => read_number(value_of(options, "--workers")?, MOST_WORKERS)?,
        _ => return None,
    };
    let port = read_number(value_of(options, "--port")?, u16::MAX)?;
    let commit_port = read_number(value_of(options, "--commit-port")?, u16::MAX)?;
    Some(ServeWords {
        port,
        commit_port,
        workers,
    })
}

/// The word after an option's name, where words come in twos.
fn value_of<'a>(options: &'a [String], name: &str) -> Option<&'a str>
    ensures { option_map (λ word. word.now) result ≡ value_of name.now (map string_bytes options.now) }
{
    match options {
        [option, value, rest @ ..] => {
            if option.as_str() == name {
                Some(value.as_str())
            } else {
                value_of(rest, name)
            }
        }
        _ => None,
    }
}
