//! The command `serve` over the real ends.
use crate::NO_MEMORY;
use crate::bell_gate::BellGate;
use link_ws::{Bell, WsPort};
use outside::{StdSource, SysClock, TcpPort, ThreadSpawner};
use std::alloc::Global;
use std::io::Read;
use std::net::{IpAddr, Ipv4Addr, Net, TcpListener, TcpStream};
use std::sync::Wait;
use std::thread::Threads;
use std::time::Clock;
use subs_server::serve_main;

/// Serves with the metadata that the reader gives. Both ports are those of the machine's loopback address: neither asks
/// who comes, so what stands in front of them does.
pub fn serve<R, I: Read + Drop>(rt: &R, alloc: Global, words: &[String], metadata: I) -> u8
where
    R: Net<Listener = TcpListener, Stream = TcpStream> + Threads + Wait + Clock,
    R: Copy + Send + Drop + 'static,
{
    let Some(bell) = hang_bell(rt, alloc) else {
        return NO_MEMORY;
    };
    let Ok(gate) = BellGate::new(alloc, bell) else {
        return NO_MEMORY;
    };
    let address = IpAddr::V4(Ipv4Addr::LOCALHOST);
    let mut metadata = StdSource::new(metadata);
    let mut sockets = WsPort::new(*rt, alloc, TcpPort::new(*rt, address), bell);
    let mut commits = Some(TcpPort::new(*rt, address));
    let Ok(mut spawner) = ThreadSpawner::new(alloc, *rt) else {
        return NO_MEMORY;
    };
    serve_main(
        rt,
        alloc,
        words,
        &mut metadata,
        &mut sockets,
        &mut commits,
        &mut spawner,
        SysClock::new(*rt),
        gate,
    )
}

/// The bell of all links, which is never freed. There is none where the system has no more memory or files.
fn hang_bell<R: Net>(rt: &R, alloc: Global) -> Option<&'static Bell> {
    let bell = Bell::new(rt).ok()?;
    let hung = Box::new(alloc, bell).ok()?;
    Some(Box::leak(hung))
}
