ghost use Rattle.std.specs.Prelude.{◌≡◌, ◌≤◌, [], Some, None, drop, vec_len};

use crate::opening::{Parts, Splits};
use crate::schedule::Schedule;
use crate::sink::{Put, Sink};
use crate::source::{Got, Source};
use std::alloc::Global;

/// A source of bytes in memory, which come in pieces. It tells what is left.
#[derive(Debug, Drop)]
pub struct MemSource {
    bytes: Vec<u8>,
    at: usize,
    piece: usize,
    schedule: Schedule,
    ghost within: { at ≤ vec_len bytes },
    ghost some: { 1 ≤ piece },
}

impl MemSource {
    /// A source of these bytes, which gives at most `piece` bytes a call, 1 or more. The calls of `read` whose numbers
    /// stand in `failing` fail; the first call has number 1. Without one the source tells that it never fails.
    pub fn new(bytes: Vec<u8>, piece: usize, failing: Vec<u64>) -> MemSource
        requires { 1 ≤ piece }
        ensures left { ⟦<MemSource as Source>⟧.left result ≡ Some bytes.items }
        ensures faults { ⟦<MemSource as Source>⟧.faults result ≡ 0 }
        ensures steady { failing.items ≡ [] → ⟦<MemSource as Source>⟧.never_fails result }
    {
        MemSource {
            bytes,
            at: 0,
            piece,
            schedule: Schedule::new(failing),
        }
    }

    /// The bytes that are left.
    pub fn left(&self) -> &[u8]
        ensures { ⟦<MemSource as Source>⟧.left self.now ≡ Some result.now }
    {
        &self.bytes[self.at..]
    }

    /// How often it has failed.
    pub fn faults(&self) -> u64
        ensures { ⟦<MemSource as Source>⟧.faults self.now ≡ result }
    {
        self.schedule.faults
    }
}

impl Source for MemSource {
    ghost left = { λ s. Some (drop s.at s.bytes.items) };

    ghost faults = { λ s. s.schedule.faults };

    ghost never_fails = { λ s. s.schedule.failing.items ≡ [] };

    fn read(&mut self, buf: &mut [u8]) -> Got {
        if self.schedule.next_fails() {
            return Got::Failed;
        }
        let rest = &self.bytes[self.at..];
        let count = rest.len().min(self.piece).min(buf.len());
        if count == 0 {
            return Got::End;
        }
        buf[..count].copy_from_slice(&rest[..count]);
        self.at += count;
        Got::Bytes(count)
    }
}

/// A sink that keeps in memory what was written, and tells it. Each call takes all the bytes or none: it answers
/// NoMemory where the growth for them is refused.
#[derive(Debug, Drop)]
pub struct MemSink {
    bytes: Vec<u8>,
    schedule: Schedule,
}

impl MemSink {
    /// An empty sink. The calls of `write` whose numbers stand in `failing` fail; the first call has number 1. Without
    /// one the sink tells that it never fails.
    pub fn new(alloc: Global, failing: Vec<u64>) -> MemSink
        ensures written { ⟦<MemSink as Sink>⟧.written result ≡ Some [] }
        ensures faults { ⟦<MemSink as Sink>⟧.faults result ≡ 0 }
        ensures steady { failing.items ≡ [] → ⟦<MemSink as Sink>⟧.never_fails result }
    {
        MemSink {
            bytes: Vec::new(alloc),
            schedule: Schedule::new(failing),
        }
    }

    /// What was written.
    pub fn as_slice(&self) -> &[u8]
        ensures { ⟦<MemSink as Sink>⟧.written self.now ≡ Some result.now }
    {
        self.bytes.as_slice()
    }

    /// How often it has failed.
    pub fn faults(&self) -> u64
        ensures { ⟦<MemSink as Sink>⟧.faults self.now ≡ result }
    {
        self.schedule.faults
    }
}

impl Sink for MemSink {
    ghost written = { λ s. Some s.bytes.items };

    ghost faults = { λ s. s.schedule.faults };

    ghost never_fails = { λ s. s.schedule.failing.items ≡ [] };

    fn write(&mut self, bytes: &[u8]) -> Put {
        if self.schedule.next_fails() {
            return Put::Failed;
        }
        match self.bytes.extend_from_slice(bytes) {
            Ok(()) => Put::Bytes(bytes.len()),
            Err(_) => Put::NoMemory,
        }
    }
}

impl Splits for (MemSource, MemSink) {
    type Source = MemSource;

    type Sink = MemSink;

    ghost left = { λ pair. ⟦<MemSource as Source>⟧.left pair.0 };

    ghost written = { λ pair. ⟦<MemSink as Sink>⟧.written pair.1 };

    ghost never_fails = { λ pair. ⟦<MemSource as Source>⟧.never_fails pair.0 × ⟦<MemSink as Sink>⟧.never_fails pair.1 };

    fn split(self) -> Parts<MemSource, MemSink> {
        let (source, sink) = self;
        Parts::Both(source, sink)
    }
}
