ghost use Rattle.std.specs.Prelude.{◌<◌, length};

use crate::{Got, MemSink, MemSource, Parts, Put, Sink, Source, Splits, StdSink, StdSource};
use std::io;
use std::io::{Read, Write};
use std::test::Fail;

/// Reads to the end by a buffer, and gives what came.
fn read_all<S: Source>(source: &mut S, into: &mut Vec<u8>, buf: &mut [u8]) -> Result<(), Fail>
    requires { 0 < length buf.old }
{
    for _ in 0..64 {
        match source.read(buf) {
            Got::Bytes(count) => into.extend_from_slice(&buf[..count])?,
            Got::End => return Ok(()),
            Got::Failed => return Err(Fail::from("a failure")),
        }
    }
    Err(Fail::from("no end"))
}

#[test]
fn a_source_in_memory_gives_its_bytes_in_pieces(rt: HostRuntime) -> Result<(), Fail> {
    let alloc = rt.alloc();
    let mut buf = [0u8; 7];
    for piece in [1usize, 3, 64] {
        let mut source = MemSource::new(b"one\ntwo\n".to_vec(alloc)?, piece, Vec::new(alloc));
        let mut got = Vec::new(alloc);
        read_all(&mut source, &mut got, &mut buf)?;
        assert_eq!(rt; got.as_slice(), b"one\ntwo\n".as_slice());
    }
    Ok(())
}

#[test]
fn a_source_fails_at_the_given_calls(rt: HostRuntime) -> Result<(), Fail> {
    let alloc = rt.alloc();
    let mut buf = [0u8; 4];
    let mut source = MemSource::new(b"ab".to_vec(alloc)?, 1, [1, 3].to_vec(alloc)?);
    for want in [
        Got::Failed,
        Got::Bytes(1),
        Got::Failed,
        Got::Bytes(1),
        Got::End,
    ] {
        assert_eq!(rt; source.read(&mut buf), want);
    }
    assert_eq!(rt; source.faults(), 2);
    Ok(())
}

#[test]
fn a_sink_fails_at_the_given_calls(rt: HostRuntime) -> Result<(), Fail> {
    let alloc = rt.alloc();
    let mut sink = MemSink::new(alloc, [2].to_vec(alloc)?);
    for want in [Put::Bytes(2), Put::Failed, Put::Bytes(2)] {
        assert_eq!(rt; sink.write(b"ab"), want);
    }
    assert_eq!(rt; sink.as_slice(), b"abab".as_slice());
    assert_eq!(rt; sink.faults(), 1);
    Ok(())
}

#[test]
fn a_pipe_is_a_sink_and_a_source(rt: HostRuntime) -> Result<(), Fail> {
    let (reader, writer) = io::pipe(&rt)?;
    let mut buf = [0u8; 8];
    let mut source = StdSource::new(reader);
    {
        let mut sink = StdSink::new(writer);
        assert_eq!(rt; sink.write(b"line\n"), Put::Bytes(5));
    }
    assert_eq!(rt; source.read(&mut buf), Got::Bytes(5));
    assert_eq!(rt; &buf[..5], b"line\n".as_slice());
    assert_eq!(rt; source.read(&mut buf), Got::End);
    Ok(())
}

#[test]
fn a_pipe_that_nobody_reads_takes_nothing(rt: HostRuntime) -> Result<(), Fail> {
    let (reader, writer) = io::pipe(&rt)?;
    let mut sink = StdSink::new(writer);
    drop(reader);
    assert_eq!(rt; sink.write(b"line\n"), Put::Failed);
    assert_eq!(rt; sink.faults(), 1);
    Ok(())
}

#[test]
fn a_reader_and_a_writer_that_fail_are_counted(rt: HostRuntime) -> Result<(), Fail> {
    let mut buf = [0u8; 8];
    let mut source = StdSource::new(Broken);
    assert_eq!(rt; source.read(&mut buf), Got::Failed);
    assert_eq!(rt; source.faults(), 1);
    let mut sink = StdSink::new(Broken);
    assert_eq!(rt; sink.write(b"line\n"), Put::Failed);
    assert_eq!(rt; sink.faults(), 1);
    Ok(())
}

/// A reader that fails, and a writer that takes nothing.
#[derive(Drop)]
struct Broken;

impl Read for Broken {
    fn read(&mut self, _buf: &mut [u8]) -> io::Result<usize> {
        Err(io::Error::from(io::ErrorKind::ConnectionReset))
    }
}

impl Write for Broken {
    fn write(&mut self, _buf: &[u8]) -> io::Result<usize> {
        Ok(0)
    }

    fn flush(&mut self) -> io::Result<()> {
        Ok(())
    }
}

#[test]
fn a_pair_in_memory_splits_into_its_two_parts(rt: HostRuntime) -> Result<(), Fail> {
    let alloc = rt.alloc();
    let source = MemSource::new(b"abc".to_vec(alloc)?, 2, Vec::new(alloc));
    let sink = MemSink::new(alloc, Vec::new(alloc));
    let Parts::Both(mut source, mut sink) = (source, sink).split() else {
        return Err(Fail::from("another answer"));
    };
    let mut buf = [0u8; 4];
    assert_eq!(rt; source.read(&mut buf), Got::Bytes(2));
    assert_eq!(rt; source.left(), b"c".as_slice());
    assert_eq!(rt; sink.write(b"x"), Put::Bytes(1));
    assert_eq!(rt; sink.as_slice(), b"x".as_slice());
    Ok(())
}
