mod ends;
mod memory;
mod system;

use crate::{
    ListClock, MemLink, MemListener, MemSink, MemSource, MemSpawner, StdSink, StdSource, SysClock,
    TcpPort, ThreadSpawner, Work,
};
use std::io;
use std::net::{IpAddr, Ipv4Addr};
use std::sync::Wait;
use std::test::Fail;

fn is_send<T: Send + Drop>(_value: T) {}

fn is_send_and_sync<T: Send + Sync + Drop>(_value: T) {}

/// A work without an answer.
#[derive(Drop)]
struct Nothing;

impl Work for Nothing {
    type Out = ();

    ghost suits = { λ work answer. Unit {0} };

    fn run<R: Wait>(self, _rt: &R) {}
}

#[test]
fn the_ends_may_go_to_another_thread(rt: HostRuntime) -> Result<(), Fail> {
    let alloc = rt.alloc();
    let (reader, writer) = io::pipe(&rt)?;
    is_send_and_sync(MemSource::new(Vec::new(alloc), 1, Vec::new(alloc)));
    is_send_and_sync(MemSink::new(alloc, Vec::new(alloc)));
    is_send_and_sync(MemLink::new(alloc, Vec::new(alloc), Vec::new(alloc)));
    is_send_and_sync(MemListener::<u8>::new(Vec::new(alloc), Vec::new(alloc)));
    is_send_and_sync(MemSpawner::<Nothing>::new(alloc, 1, Vec::new(alloc))?);
    is_send_and_sync(ListClock::new(Vec::new(alloc)));
    is_send_and_sync(StdSource::new(reader));
    is_send_and_sync(StdSink::new(writer));
    is_send_and_sync(TcpPort::new(rt, IpAddr::V4(Ipv4Addr::LOCALHOST)));
    is_send(ThreadSpawner::<Nothing, HostRuntime>::new(alloc, rt)?);
    is_send_and_sync(SysClock::new(rt));
    Ok(())
}
