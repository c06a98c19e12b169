ghost use Rattle.std.specs.Prelude.{◌≡◌, ◌≢◌, ◌≤◌};
ghost use Rattle.outside.specs.Ends.{Rose};
ghost use Rattle.subs_run.specs.Written.{WritesAll, WritesFront};

use outside::{Put, Sink};

/// How writing ended.
#[derive(Clone, Copy)]
pub(crate) enum Wrote {
    Done,
    Failed,
    NoMemory,
}

/// Writes all of the bytes, or a front of them where the sink fails or refuses memory.
pub(crate) fn write_all<K: Sink>(sink: &mut K, bytes: &[u8]) -> Wrote
    ensures done { result ≡ Wrote.Done → WritesAll (K.written sink.old) (K.written sink.new) bytes.now }
    ensures front { result ≢ Wrote.Done → WritesFront (K.written sink.old) (K.written sink.new) bytes.now }
    ensures later { K.faults sink.old ≤ K.faults sink.new }
    ensures failed { result ≡ Wrote.Failed → Rose (K.faults sink.old) (K.faults sink.new) }
    ensures steady { K.never_fails sink.old → K.never_fails sink.new × (result ≢ Wrote.Failed) }
{
    let mut at = 0;
    while at < bytes.len() {
        match sink.write(&bytes[at..]) {
            Put::Bytes(count) => at += count,
            Put::Failed => return Wrote::Failed,
            Put::NoMemory => return Wrote::NoMemory,
        }
    }
    Wrote::Done
}
