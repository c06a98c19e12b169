ghost use Rattle.std.specs.Prelude.{◌≡◌};

use crate::sink::{Put, Sink};
use crate::source::{Got, Source};
use std::io::{Read, Write};

/// Any reader as a source. An error of the reader is a fault, and a read of no bytes is the end. It tells what is left
/// where the reader does, and never that it can't fail.
#[derive(Drop)]
pub struct StdSource<R> {
    inner: R,
    faults: u64,
}

impl<R: Read> StdSource<R> {
    /// A source over the reader, which hasn't failed yet.
    pub fn new(inner: R) -> StdSource<R>
        ensures left { ⟦<StdSource<R> as Source>⟧.left result ≡ R.remaining inner }
        ensures faults { ⟦<StdSource<R> as Source>⟧.faults result ≡ 0 }
    {
        StdSource { inner, faults: 0 }
    }

    /// How often it has failed.
    pub fn faults(&self) -> u64
        ensures { ⟦<StdSource<R> as Source>⟧.faults self.now ≡ result }
    {
        self.faults
    }
}

impl<R: Read> Source for StdSource<R> {
    ghost left = { λ s. R.remaining s.inner };

    ghost faults = { λ s. s.faults };

    ghost never_fails = { λ _. ⊥ };

    fn read(&mut self, buf: &mut [u8]) -> Got {
        match self.inner.read(buf) {
            Ok(0) => Got::End,
            Ok(count) => Got::Bytes(count),
            Err(_) => {
                self.faults = self.faults.saturating_add(1);
                Got::Failed
            }
        }
    }
}

/// Any writer as a sink. An error of the writer is a fault, and so is a write of no bytes. It tells what was written
/// where the writer does, and never that it can't fail.
#[derive(Drop)]
pub struct StdSink<W> {
    inner: W,
    faults: u64,
}

impl<W: Write> StdSink<W> {
    /// A sink over the writer, which hasn't failed yet.
    pub fn new(inner: W) -> StdSink<W>
        ensures written { ⟦<StdSink<W> as Sink>⟧.written result ≡ W.contents inner }
        ensures faults { ⟦<StdSink<W> as Sink>⟧.faults result ≡ 0 }
    {
        StdSink { inner, faults: 0 }
    }

    /// How often it has failed.
    pub fn faults(&self) -> u64
        ensures { ⟦<StdSink<W> as Sink>⟧.faults self.now ≡ result }
    {
        self.faults
    }
}

impl<W: Write> Sink for StdSink<W> {
    ghost written = { λ s. W.contents s.inner };

    ghost faults = { λ s. s.faults };

    ghost never_fails = { λ _. ⊥ };

    fn write(&mut self, bytes: &[u8]) -> Put {
        match self.inner.write(bytes) {
            Ok(count) if count > 0 => Put::Bytes(count),
            _ => {
                self.faults = self.faults.saturating_add(1);
                Put::Failed
            }
        }
    }
}
