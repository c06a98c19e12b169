ghost use Rattle.std.specs.Prelude.{◌≡◌, None};

use crate::bell::Bell;
use crate::handshake::{WsFault, accept_ws};
use crate::link::WsLink;
use outside::{Accepted, Listener, Opened, Opens};
use std::alloc::Global;
use std::net::{Net, TcpStream};

/// A port whose connections open as WebSockets, over a listener whose connections are TCP streams, as a `TcpPort`. Its
/// faults and its last port are that listener's. It doesn't tell its connections. Their links all hear its bell.
#[derive(Drop)]
pub struct WsPort<P, R> {
    rt: R,
    alloc: Global,
    port: P,
    bell: &'static Bell,
}

impl<P: Listener<Conn = TcpStream>, R: Net + Copy + Send + Drop + 'static> WsPort<P, R> {
    pub fn new(rt: R, alloc: Global, port: P, bell: &'static Bell) -> WsPort<P, R>
        ensures faults { ⟦<WsPort<P, R> as Listener>⟧.faults result ≡ P.faults port }
        ensures last_port { ⟦<WsPort<P, R> as Listener>⟧.last_port result ≡ P.last_port port }
    {
        WsPort {
            rt,
            alloc,
            port,
            bell,
        }
    }

    /// The listener under it.
    pub fn port(&self) -> &P
        ensures { P.faults result.now ≡ ⟦<WsPort<P, R> as Listener>⟧.faults self.now }
    {
        &self.port
    }
}

impl<P: Listener<Conn = TcpStream>, R: Net + Copy + Send + Drop + 'static> Listener
    for WsPort<P, R> {
    type Conn = WsConn<R>;

    ghost coming = { λ _. None };

    ghost last_port = { λ s. P.last_port s.port };

    ghost faults = { λ s. P.faults s.port };

    fn listen(&mut self, port: u16) -> bool {
        self.port.listen(port)
    }

    fn accept(&mut self) -> Accepted<WsConn<R>> {
        match self.port.accept() {
            Accepted::Conn(stream) => Accepted::Conn(WsConn {
                rt: self.rt,
                alloc: self.alloc,
                stream,
                bell: self.bell,
            }),
            Accepted::End => Accepted::End,
            Accepted::Failed => Accepted::Failed,
        }
    }
}

/// A TCP stream that opens as a WebSocket. The handshake is done where it is opened, so that half of one holds up
/// nobody else.
#[derive(Drop)]
pub struct WsConn<R> {
    rt: R,
    alloc: Global,
    stream: TcpStream,
    bell: &'static Bell,
}

impl<R: Net + Copy + Send + Drop + 'static> Opens for WsConn<R> {
    type Link = WsLink;

    ghost coming = { λ _. None };

    ghost sent = { λ _. None };

    ghost faults = { λ _. 0 };

    fn open_link(self) -> Opened<WsLink> {
        let WsConn {
            rt,
            alloc,
            stream,
            bell,
        } = self;
        match accept_ws(&rt, alloc, stream, bell) {
            Ok(link) => Opened::Link(link),
            Err(WsFault::Handshake) => Opened::Refused,
            Err(WsFault::NoMemory) => Opened::NoMemory,
        }
    }
}
