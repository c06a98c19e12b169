ghost use Rattle.std.specs.Prelude.{◌≡◌, IfOk};
ghost use Rattle.wire_model.specs.Generated.{line_count, summary_line};

use crate::parts::{append, append_line, append_number, append_size};
use scalar_val::{Bytes, NoMemory};
use sha2::{Digest, Sha256};
use std::alloc::Global;

/// The line that sums up the transcript of the script of so many subscribers: `load N lines X sha256 H`, with the number
/// of its lines and its SHA-256 (FIPS 180-4) in lower-case hexadecimal, and a line feed.
pub fn summary_line(alloc: Global, n: u32, transcript: &[u8]) -> Result<Bytes, NoMemory>
    ensures { IfOk result (λ line. line ≡ summary_line n transcript.now) }
{
    let digest = hex::encode(alloc, Sha256::digest(transcript))?;
    let mut out = Vec::new(alloc);
    append(&mut out, b"load ")?;
    append_number(&mut out, n)?;
    append(&mut out, b" lines ")?;
    append_size(&mut out, line_count(transcript))?;
    append(&mut out, b" sha256 ")?;
    append_line(&mut out, digest.as_bytes())?;
    Ok(Bytes::of(out))
}

/// The number of lines of a text whose lines are all ended.
fn line_count(text: &[u8]) -> usize
    ensures { result ≡ line_count text.now }
{
    text.iter().filter(|byte| **byte == b'\n').count()
}
