ghost use Rattle.std.specs.Prelude.{◌≡◌, None};

use crate::listener::{Accepted, Listener};
use crate::opening::{Parts, Splits};
use crate::standard::{StdSink, StdSource};
use std::io::ErrorKind;
use std::net::{IpAddr, Net, SocketAddr, TcpListener, TcpStream};

/// How many connections in a row may break off before they are accepted, until the port has failed.
const PASSED_OVER: u32 = 1_000_000;

/// Whether an error of `accept` is of the one connection that would have come, or of the call alone, so that the port
/// still listens. Linux gives the errors of a connection that waits to its `accept`.
fn is_of_one_connection(kind: ErrorKind) -> bool {
    matches!(
        kind,
        ErrorKind::Interrupted
            | ErrorKind::ConnectionAborted
            | ErrorKind::ConnectionReset
            | ErrorKind::TimedOut
            | ErrorKind::HostUnreachable
            | ErrorKind::NetworkDown
            | ErrorKind::NetworkUnreachable
    )
}

/// A TCP port of this machine, whose connections are TCP streams. It tells neither its connections nor its port, and
/// never ends. What the system does at its calls is trusted and not proved.
#[derive(Drop)]
pub struct TcpPort<R> {
    rt: R,
    address: IpAddr,
    listener: Option<TcpListener>,
    faults: u64,
}

impl<R: Net<Listener = TcpListener, Stream = TcpStream> + Drop> TcpPort<R> {
    /// A port of this address of the machine, which doesn't listen yet.
    pub fn new(rt: R, address: IpAddr) -> TcpPort<R>
        ensures { ⟦<TcpPort<R> as Listener>⟧.faults result ≡ 0 }
    {
        TcpPort {
            rt,
            address,
            listener: None,
            faults: 0,
        }
    }

    /// The port on which it listens, where it does and the system says which. After `listen` on 0 the system chose one.
    pub fn local_port(&self) -> Option<u16> {
        match self.listener.as_ref()?.local_addr() {
            Ok(address) => Some(address.port()),
            Err(_) => None,
        }
    }

    /// How often it has failed.
    pub fn faults(&self) -> u64
        ensures { ⟦<TcpPort<R> as Listener>⟧.faults self.now ≡ result }
    {
        self.faults
    }
}

impl<R: Net<Listener = TcpListener, Stream = TcpStream> + Drop> Listener for TcpPort<R> {
    type Conn = TcpStream;

    ghost coming = { λ _. None };

    ghost last_port = { λ _. None };

    ghost faults = { λ port. port.faults };

    fn listen(&mut self, port: u16) -> bool {
        match TcpListener::bind(&self.rt, SocketAddr::new(self.address, port)) {
            Ok(listener) => {
                self.listener = Some(listener);
                true
            }
            Err(_) => {
                self.faults = self.faults.saturating_add(1);
                false
            }
        }
    }

    fn accept(&mut self) -> Accepted<TcpStream> {
        if let Some(listener) = &self.listener {
            for _ in 0..PASSED_OVER {
                match listener.accept() {
                    Ok((stream, _)) => return Accepted::Conn(stream),
                    Err(error) if is_of_one_connection(error.kind()) => {}
                    Err(_) => break,
                }
            }
        }
        self.faults = self.faults.saturating_add(1);
        Accepted::Failed
    }
}

/// A TCP stream splits into two halves over one socket. It fails where the system gives no second handle of the socket.
impl Splits for TcpStream {
    type Source = StdSource<TcpStream>;

    type Sink = StdSink<TcpStream>;

    ghost left = { λ _. None };

    ghost written = { λ _. None };

    ghost never_fails = { λ _. ⊥ };

    fn split(self) -> Parts<StdSource<TcpStream>, StdSink<TcpStream>> {
        match self.try_clone() {
            Ok(half) => Parts::Both(StdSource::new(half), StdSink::new(self)),
            Err(_) => Parts::Failed,
        }
    }
}
