ghost use Rattle.std.specs.Prelude.{◌≡◌, ◌==◌, true, false, length, drop, MatchOption};
ghost use Rattle.std.specs.List.{starts_with};
ghost use Rattle.std.specs.Option.{option_map};
ghost use Rattle.machine.specs.Lines.{read_line, read_form, of_text, read_connection, read_job, read_word};
ghost use Rattle.script_text.specs.Said.{line_of};

use crate::number::{read_connection, read_job};

/// A line of a script behind its metadata, without its line end.
#[derive(Clone, Copy, Debug, Drop)]
pub enum Line<'a> {
    /// An empty line or a comment, which is no event.
    Passed,
    /// `open C`
    Open(u32),
    /// `recv C TEXT`, with the whole text of a client's message.
    Receive { conn: u32, text: &'a str },
    /// `binary C`
    Binary(u32),
    /// `timeout C`
    Timeout(u32),
    /// `gone C`
    Gone(u32),
    /// `commit TEXT`, with the whole text of a transaction.
    Commit(&'a str),
    /// `tick`
    Tick,
    /// `take`
    Take,
    /// `publish J`
    Publish(u64),
    /// `abandon J`
    Abandon(u64),
    /// `drain C`
    Drain(u32),
    /// `report`
    Report,
    /// `poll`
    Poll,
}

/// Reads one line. Its texts are given as they stand. It takes no memory. `None`: the line is none of the forms of a
/// script, or isn't UTF-8.
pub fn read_line(line: &[u8]) -> Option<Line<'_>>
    ensures { option_map line_of result ≡ read_line line.now }
{
    if line.is_empty() {
        return Some(Line::Passed);
    }
    if line[0] == b'#' {
        return Some(Line::Passed);
    }
    match str::from_utf8(line) {
        Ok(text) => read_form(text),
        Err(_) => None,
    }
}

/// The forms that end with a text, and all others.
fn read_form(text: &str) -> Option<Line<'_>>
    ensures { option_map line_of result ≡ read_form text.now }
{
    if let Some(rest) = behind(text, "recv ") {
        return read_receive(rest);
    }
    if let Some(rest) = behind(text, "commit ") {
        return Some(Line::Commit(rest));
    }
    read_on_connection(text)
}

/// A connection, a space and a text.
fn read_receive(text: &str) -> Option<Line<'_>>
    ensures { option_map line_of result ≡ of_text text.now }
{
    let (conn, text) = text.split_once(' ')?;
    let conn = read_connection(conn)?;
    Some(Line::Receive { conn, text })
}

/// The forms of a word and a connection, and those without a text.
fn read_on_connection(text: &str) -> Option<Line<'_>>
    ensures { option_map line_of result ≡ read_connection text.now }
{
    if let Some(rest) = behind(text, "open ") {
        return Some(Line::Open(read_connection(rest)?));
    }
    if let Some(rest) = behind(text, "binary ") {
        return Some(Line::Binary(read_connection(rest)?));
    }
    if let Some(rest) = behind(text, "timeout ") {
        return Some(Line::Timeout(read_connection(rest)?));
    }
    if let Some(rest) = behind(text, "gone ") {
        return Some(Line::Gone(read_connection(rest)?));
    }
    if let Some(rest) = behind(text, "drain ") {
        return Some(Line::Drain(read_connection(rest)?));
    }
    read_on_job(text)
}

/// The forms of a word and a job, and those of one word.
fn read_on_job(text: &str) -> Option<Line<'_>>
    ensures { option_map line_of result ≡ read_job text.now }
{
    if let Some(rest) = behind(text, "publish ") {
        return Some(Line::Publish(read_job(rest)?));
    }
    if let Some(rest) = behind(text, "abandon ") {
        return Some(Line::Abandon(read_job(rest)?));
    }
    read_word(text.as_bytes())
}

/// The forms of one word.
fn read_word(text: &[u8]) -> Option<Line<'_>>
    ensures { option_map line_of result ≡ read_word text.now }
{
    if text == b"tick".as_slice() {
        return Some(Line::Tick);
    }
    if text == b"take".as_slice() {
        return Some(Line::Take);
    }
    if text == b"report".as_slice() {
        return Some(Line::Report);
    }
    if text == b"poll".as_slice() {
        return Some(Line::Poll);
    }
    None
}

/// What stands behind the start of a text, where it begins so.
fn behind<'a>(text: &'a str, start: &str) -> Option<&'a str>
    ensures { MatchOption result (starts_with ◌==◌ text.now start.now ≡ false)
        (λ rest. (starts_with ◌==◌ text.now start.now ≡ true) × (rest.now ≡ drop (length start.now) text.now)) }
{
    text.strip_prefix(start)
}
