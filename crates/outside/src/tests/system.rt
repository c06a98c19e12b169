ghost use Rattle.std.specs.Prelude.{⊤};

use crate::{
    Accepted, Clock, Got, Listener, Parts, Put, Sink, Source, Spawner, Splits, StdSink, StdSource,
    SysClock, TcpPort, ThreadSpawner, Work,
};
use std::alloc::Global;
use std::net::{IpAddr, Ipv4Addr, TcpStream};
use std::sync::atomic::{AtomicU64, Ordering};
use std::sync::{Arc, Wait};
use std::test::Fail;

/// How often a work or a test looks for a flag, at a millisecond each.
const TURNS: u32 = 20_000;

/// A port that listens on a number of the system's choice, and that number.
fn listening(rt: HostRuntime) -> Result<(TcpPort<HostRuntime>, u16), Fail> {
    let mut port = TcpPort::new(rt, IpAddr::V4(Ipv4Addr::LOCALHOST));
    let listens = port.listen(0);
    match port.local_port() {
        Some(number) if listens => Ok((port, number)),
        _ => Err(Fail::from("no port")),
    }
}

/// The client's end and the server's of a connection.
fn connected(rt: HostRuntime) -> Result<(TcpStream, TcpStream), Fail> {
    let (mut port, number) = listening(rt)?;
    let client = TcpStream::connect(&rt, (IpAddr::V4(Ipv4Addr::LOCALHOST), number))?;
    match port.accept() {
        Accepted::Conn(server) => Ok((client, server)),
        Accepted::End | Accepted::Failed => Err(Fail::from("no connection")),
    }
}

fn halves(stream: TcpStream) -> Result<(StdSource<TcpStream>, StdSink<TcpStream>), Fail> {
    match stream.split() {
        Parts::Both(source, sink) => Ok((source, sink)),
        Parts::Failed | Parts::NoMemory => Err(Fail::from("no halves")),
    }
}

#[test]
fn a_port_that_is_taken_fails(rt: HostRuntime) -> Result<(), Fail> {
    let (_port, number) = listening(rt)?;
    let mut taken = TcpPort::new(rt, IpAddr::V4(Ipv4Addr::LOCALHOST));
    assert!(rt; !taken.listen(number));
    assert!(rt; matches!(taken.accept(), Accepted::Failed));
    assert_eq!(rt; taken.faults(), 2);
    Ok(())
}

#[test]
fn a_tcp_stream_splits_into_both_directions(rt: HostRuntime) -> Result<(), Fail> {
    let (client, server) = connected(rt)?;
    let (mut from_client, mut to_client) = halves(server)?;
    let (mut from_server, mut to_server) = halves(client)?;
    let mut buf = [0u8; 8];
    assert_eq!(rt; to_server.write(b"[]\n"), Put::Bytes(3));
    assert_eq!(rt; from_client.read(&mut buf), Got::Bytes(3));
    assert_eq!(rt; to_client.write(b"ok\n"), Put::Bytes(3));
    assert_eq!(rt; from_server.read(&mut buf), Got::Bytes(3));
    assert_eq!(rt; &buf[..3], b"ok\n".as_slice());
    Ok(())
}

#[test]
fn a_tcp_stream_ends_where_its_peer_is_gone(rt: HostRuntime) -> Result<(), Fail> {
    let (client, server) = connected(rt)?;
    let (mut from_client, _to_client) = halves(server)?;
    drop(client);
    let mut buf = [0u8; 8];
    assert_eq!(rt; from_client.read(&mut buf), Got::End);
    Ok(())
}

/// Sets its own flag and waits for the other's, and says at the end whether it came.
#[derive(Drop)]
struct Meeting<C> {
    mine: Arc<AtomicU64, Global>,
    other: Arc<AtomicU64, Global>,
    met: Arc<AtomicU64, Global>,
    clock: C,
}

impl<C: Clock + Send + Drop> Work for Meeting<C> {
    type Out = ();

    ghost suits = { λ work answer. ⊤ };

    fn run<R: Wait>(self, rt: &R) {
        let Meeting {
            mine,
            other,
            met,
            mut clock,
        } = self;
        mine.store(1, Ordering::SeqCst);
        if comes(rt, &other, 1, &mut clock) {
            met.fetch_add(1, Ordering::SeqCst);
        }
    }
}

/// Whether a flag comes to a value within the limit of turns.
fn comes<R: Wait, C: Clock>(rt: &R, flag: &AtomicU64, value: u64, clock: &mut C) -> bool {
    for _ in 0..TURNS {
        if flag.load(Ordering::SeqCst) == value {
            return true;
        }
        clock.rest(rt, 1);
    }
    false
}

#[test]
fn works_that_wait_for_each_other_run_beside_each_other(rt: HostRuntime) -> Result<(), Fail> {
    let alloc = rt.alloc();
    let mut clock = SysClock::new(rt);
    let first = Arc::new(alloc, AtomicU64::new(0))?;
    let second = Arc::new(alloc, AtomicU64::new(0))?;
    let met = Arc::new(alloc, AtomicU64::new(0))?;
    let mut spawner = ThreadSpawner::new(alloc, rt)?;
    for (mine, other) in [(&first, &second), (&second, &first)] {
        let meeting = Meeting {
            mine: Arc::try_clone(mine)?,
            other: Arc::try_clone(other)?,
            met: Arc::try_clone(&met)?,
            clock,
        };
        assert!(rt; spawner.start(meeting));
    }
    assert_eq!(rt; spawner.faults(), 0);
    assert!(rt; comes(&rt, &met, 2, &mut clock));
    Ok(())
}

#[test]
fn the_system_clock_goes_on_while_it_rests(rt: HostRuntime) -> Result<(), Fail> {
    let mut clock = SysClock::new(rt);
    let before = clock.now_ms();
    clock.rest(&rt, 20);
    let after = clock.now_ms();
    assert!(rt; before.saturating_add(20) <= after);
    assert!(rt; after <= before.saturating_add(20_000));
    Ok(())
}
