//! Writing an answer.
ghost use Rattle.std.specs.Prelude.{◌≡◌, ◌≢◌};
ghost use Rattle.commit_server.specs.Commits.{sink_view};
ghost use Rattle.commit_server.specs.Parts.{WritesText};

use crate::end::CommitEnd;
use outside::{Put, Sink};

/// Writes all of a text, or a front of it where the sink fails or refuses memory.
#[tactic(auto, using(crate::proofs::Writing::writes_nothing, crate::proofs::Writing::writes_same))]
pub(crate) fn write_text<K: Sink>(sink: &mut K, text: &[u8]) -> Result<(), CommitEnd>
    ensures writes { WritesText (sink_view (K.written sink.old) (K.faults sink.old))
        (sink_view (K.written sink.new) (K.faults sink.new)) text.now result }
    ensures steady { K.never_fails sink.old → K.never_fails sink.new × (result ≢ Err CommitEnd.SinkFault) }
{
    let mut at = 0;
    while at < text.len() {
        match sink.write(&text[at..]) {
            Put::Bytes(count) => at += count,
            Put::Failed => return Err(CommitEnd::SinkFault),
            Put::NoMemory => return Err(CommitEnd::NoMemory),
        }
    }
    Ok(())
}
