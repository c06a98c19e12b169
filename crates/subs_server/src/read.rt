//! Reading the metadata.
ghost use Rattle.std.specs.Prelude.{◌≡◌, ◌≤◌, IfOk};
ghost use Rattle.outside.specs.Ends.{Rose};
ghost use Rattle.subs_server.specs.Mains.{Held};

use outside::{Got, Source};
use std::alloc::Global;
use std::sync::Wait;

/// The most bytes of metadata. One byte more is read, and not much more.
const LIMIT: usize = 1_048_576;

/// The most bytes of a piece.
const PIECE: usize = 4096;

/// Why no text was read.
#[derive(Clone, Copy, Debug, PartialEq, Eq)]
pub(crate) enum ReadEnd {
    Fault,
    NoMemory,
}

/// The bytes that a source has left, to its end or past the limit.
#[tactic(auto, using(crate::proofs::Reading::text_nothing, crate::proofs::Reading::text_more, crate::proofs::Reading::held_whole, crate::proofs::Reading::held_past, crate::proofs::Reading::later_then, crate::proofs::Reading::rose_then))]
pub(crate) fn read_text<R: Wait, M: Source>(
    rt: &R,
    alloc: Global,
    source: &mut M,
) -> Result<Vec<u8>, ReadEnd>
    ensures held { IfOk result (λ text. Held (M.left source.old) (M.left source.new) text.items) }
    ensures later { M.faults source.old ≤ M.faults source.new }
    ensures failed { result ≡ Err ReadEnd.Fault → Rose (M.faults source.old) (M.faults source.new) }
{
    let mut text = Vec::new(alloc);
    let mut buf = [0u8; PIECE];
    for _ in rt.forever() {
        match source.read(&mut buf) {
            Got::Bytes(count) => {
                if text.extend_from_slice(&buf[..count]).is_err() {
                    return Err(ReadEnd::NoMemory);
                }
                if text.len() > LIMIT {
                    return Ok(text);
                }
            }
            Got::End => return Ok(text),
            Got::Failed => return Err(ReadEnd::Fault),
        }
    }
    unreachable!()
}
