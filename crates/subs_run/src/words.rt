ghost use Rattle.std.specs.Prelude.{◌≡◌, map, string_bytes};
ghost use Rattle.subs_run.specs.Words.{is_run, load_count, subscribers};

use script_text::read_number;

/// Whether the words are `run` alone.
pub(crate) fn is_run(words: &[String]) -> bool
    ensures { result ≡ is_run (map string_bytes words.now) }
{
    match words {
        [word] => word.as_bytes() == b"run".as_slice(),
        _ => false,
    }
}

/// The number behind the word `load`.
pub(crate) fn load_count(words: &[String]) -> Option<u32>
    ensures { result ≡ load_count (map string_bytes words.now) }
{
    match words {
        [word, number] => {
            if word.as_bytes() == b"load".as_slice() {
                subscribers(number.as_str())
            } else {
                None
            }
        }
        _ => None,
    }
}

/// A number of subscribers, from 1 to 1,000.
fn subscribers(text: &str) -> Option<u32>
    ensures { result ≡ subscribers text.now }
{
    match read_number(text, 1001) {
        Some(0) | None => None,
        Some(number) => u32::try_from(number).ok(),
    }
}
