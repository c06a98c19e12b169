ghost use Rattle.std.specs.Prelude.{◌≡◌, ◌≤◌, None};
ghost use Rattle.outside.specs.Ends.{Rose};

use crate::answer::{answer_of, breach_of};
use crate::paced::Paced;
use outside::{Link, LinkIn, Sent};
use std::alloc::Global;
use std::io::{ErrorKind, Read};
use std::str;
use tungstenite::{CloseCode, CloseFrame, Error, Message, NoMask, Utf8Bytes, WebSocket};

/// So many reads of the stream a `recv` takes at most before it answers `Idle`: some 1.3 seconds, where a peer sends
/// one byte after the other.
const RECV_READS: u32 = 16;

/// So many reads of the stream go by after a close at most: some 10 seconds, or 1.6 million bytes.
const CLOSE_READS: u32 = 200;

/// So many reads that give nothing go by after a close at most: one second.
const CLOSE_IDLES: u32 = 20;

/// A link over a WebSocket. It tells neither what comes nor what was sent.
///
/// `recv` answers `Idle` where the bell rang, where nothing came for 50 ms, or for 500 ms if nothing had come in the
/// wait before either, after a ping or a pong, and in the middle of a long message; what came of a message is kept.
/// Pings are answered, and so is the peer's close before `PeerClosed`. A message of more than 2,097,152 bytes, a text
/// that isn't UTF-8 and all else that RFC 6455 forbids end the link: the peer is sent a close with 1009, 1007 or 1002,
/// and the answer is `Failed`. So is that of a `send` for which the peer has no room for 10 seconds.
#[derive(Drop)]
pub struct WsLink {
    alloc: Global,
    socket: WebSocket<Paced, NoMask>,
    faults: u64,
}

impl WsLink {
    pub(crate) fn new(alloc: Global, socket: WebSocket<Paced, NoMask>) -> WsLink
        ensures { result.faults ≡ 0 }
    {
        WsLink {
            alloc,
            socket,
            faults: 0,
        }
    }

    /// How often it has failed.
    pub fn faults(&self) -> u64
        ensures { ⟦<WsLink as Link>⟧.faults self.now ≡ result }
    {
        self.faults
    }

    fn count_fault(&mut self)
        ensures later { self.old.faults ≤ self.new.faults }
        ensures rose { Rose self.old.faults self.new.faults }
    {
        self.faults = self.faults.saturating_add(1);
    }

    /// Answers a send or a close, by what it gave.
    fn sent(&mut self, done: Result<(), Error>) -> Sent
        ensures later { self.old.faults ≤ self.new.faults }
        ensures failed { result ≡ Sent.Failed → Rose self.old.faults self.new.faults }
    {
        match done {
            Ok(()) => return Sent::Done,
            Err(Error::OutOfMemory) => return Sent::NoMemory,
            Err(_) => {}
        }
        self.count_fault();
        Sent::Failed
    }
}

impl Link for WsLink {
    ghost coming = { λ _. None };

    ghost sent = { λ _. None };

    ghost faults = { λ link. link.faults };

    fn recv(&mut self) -> LinkIn {
        self.socket.get_mut().listen(RECV_READS);
        let read = self.socket.read();
        if let Some(code) = breach_of(&read) {
            leave(&mut self.socket, code);
        }
        // A pong or the answer to a close would go out at the next read; it goes out at once here.
        let is_flushed = self.socket.flush().is_ok();
        match answer_of(self.alloc, read) {
            LinkIn::PeerClosed => return LinkIn::PeerClosed,
            LinkIn::NoMemory => return LinkIn::NoMemory,
            LinkIn::Failed => {}
            came => {
                if is_flushed {
                    return came;
                }
            }
        }
        self.count_fault();
        LinkIn::Failed
    }

    fn send(&mut self, text: &[u8]) -> Sent {
        let Ok(text) = str::from_utf8(text) else {
            self.count_fault();
            return Sent::Failed;
        };
        match Message::text(self.alloc, text) {
            Ok(message) => {
                let done = self.socket.send(message);
                self.sent(done)
            }
            Err(_) => Sent::NoMemory,
        }
    }

    fn close(&mut self, code: u16, reason: &[u8]) -> Sent {
        let Ok(reason) = str::from_utf8(reason) else {
            self.count_fault();
            return Sent::Failed;
        };
        let Ok(reason) = Utf8Bytes::copy_from_str(self.alloc, reason) else {
            return Sent::NoMemory;
        };
        let code = CloseCode::from(code);
        let done = self.socket.close(Some(CloseFrame { code, reason }));
        let sent = self.sent(done);
        if sent == Sent::Done {
            wait_for_close(&mut self.socket);
        }
        sent
    }
}

/// Reads until the peer's close came, for a while. Where a socket is dropped with unread bytes, the system lets the
/// peer lose the close that was sent.
fn wait_for_close(socket: &mut WebSocket<Paced, NoMask>) {
    socket.get_mut().allow(CLOSE_READS);
    let mut idles = 0;
    for _ in 0..u32::MAX {
        match socket.read() {
            Ok(_) => {}
            Err(Error::Io(error)) if error.kind() == ErrorKind::WouldBlock && idles < CLOSE_IDLES =>
                {
                    idles += 1;
                }
            Err(_) => return,
        }
    }
}

/// Sends a close to a peer that broke the protocol, and drops what it still sends, for a while.
fn leave(socket: &mut WebSocket<Paced, NoMask>, code: CloseCode) {
    let reason = Utf8Bytes::new();
    let closed = socket.close(Some(CloseFrame { code, reason }));
    if closed.is_ok() && socket.get_ref().end_writing().is_ok() {
        discard(socket.get_mut());
    }
}

/// Reads to the stream's end, for a while.
fn discard(stream: &mut Paced) {
    let mut bytes = [0; 8192];
    stream.allow(CLOSE_READS);
    let mut idles = 0;
    for _ in 0..CLOSE_READS {
        match stream.read(&mut bytes) {
            Ok(0) => return,
            Ok(_) => {}
            Err(error) if error.kind() == ErrorKind::WouldBlock && idles < CLOSE_IDLES => {
                idles += 1;
            }
            Err(_) => return,
        }
    }
}
