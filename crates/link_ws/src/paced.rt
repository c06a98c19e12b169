use crate::bell::Bell;
use mio::unix::SourceFd;
use mio::{Events, Interest, Poll, Token};
use std::alloc::Global;
use std::io;
use std::io::{ErrorKind, Read, Write};
use std::net::{Net, Shutdown, TcpStream};
use std::os::fd::AsRawFd;
use std::time::Duration;

/// After so many milliseconds a read that gave no byte ends.
pub const READ_MS: u64 = 50;

/// After so many milliseconds that read of a link ends before which nothing happened for a while.
const IDLE_MS: u64 = 500;

const STREAM: Token = Token(0);

const BELL: Token = Token(1);

/// A TCP stream that may be read so many more times, and then answers that it would block. A peer that sends a byte now
/// and then can't keep a call that reads until a message is whole for longer than these reads take.
///
/// A read waits until bytes come or the bell rings, if it hears one, but no longer than its time.
#[derive(Drop)]
pub struct Paced {
    stream: TcpStream,
    poll: Poll,
    events: Events,
    bell: Option<&'static Bell>,
    reads_left: u32,
    wait_ms: u64,
    // In the last wait nothing happened.
    is_idle: bool,
    // The bell rang since `listen`.
    is_rung: bool,
}

impl Paced {
    /// A stream that may be read so many times, and hears no bell.
    pub fn new<R: Net>(rt: &R, alloc: Global, stream: TcpStream, reads: u32) -> io::Result<Paced> {
        let poll = Poll::new(rt)?;
        let fd = stream.as_raw_fd();
        poll.registry()
            .register(&mut SourceFd(&fd), STREAM, Interest::READABLE)?;
        Ok(Paced {
            stream,
            poll,
            events: Events::with_capacity(alloc, 2)?,
            bell: None,
            reads_left: reads,
            wait_ms: READ_MS,
            is_idle: false,
            is_rung: false,
        })
    }

    /// Hears this bell from now on.
    pub fn hear(&mut self, bell: &'static Bell) -> io::Result<()> {
        let fd = bell.as_raw_fd();
        self.poll
            .registry()
            .register(&mut SourceFd(&fd), BELL, Interest::READABLE)?;
        self.bell = Some(bell);
        Ok(())
    }

    /// Allows so many reads from now on, until the bell rings. The first may wait long where nothing happened in the
    /// last wait.
    pub fn listen(&mut self, reads: u32) {
        self.reads_left = reads;
        self.is_rung = false;
        self.wait_ms = if self.is_idle { IDLE_MS } else { READ_MS };
    }

    /// Allows so many reads from now on, and hears no bell any more.
    pub fn allow(&mut self, reads: u32) {
        self.reads_left = reads;
        self.is_rung = false;
        self.wait_ms = READ_MS;
        if let Some(bell) = self.bell.take() {
            let fd = bell.as_raw_fd();
            let _done = self.poll.registry().deregister(&mut SourceFd(&fd));
        }
    }

    /// Ends the direction to the peer, after what was written.
    pub fn end_writing(&self) -> io::Result<()> {
        self.stream.shutdown(Shutdown::Write)
    }

    /// Waits, and says whether the stream has something to read.
    fn wait(&mut self) -> io::Result<bool> {
        let fd = self.stream.as_raw_fd();
        // What has been reported and is still there is reported again.
        self.poll
            .registry()
            .reregister(&mut SourceFd(&fd), STREAM, Interest::READABLE)?;
        let time = Duration::from_millis(self.wait_ms);
        self.poll.poll(&mut self.events, Some(time))?;
        self.wait_ms = READ_MS;
        self.is_idle = self.events.is_empty();
        let mut has_come = false;
        for event in &self.events {
            if event.token() == BELL {
                self.is_rung = true;
            } else {
                has_come = true;
            }
        }
        Ok(has_come)
    }
}

/// Whether a read ended because nothing came in its time, or because a signal came.
fn is_pause(kind: ErrorKind) -> bool {
    matches!(
        kind,
        ErrorKind::WouldBlock | ErrorKind::TimedOut | ErrorKind::Interrupted
    )
}

/// Every read that gave nothing for now is an error of the kind `WouldBlock`.
impl Read for Paced {
    fn read(&mut self, buf: &mut [u8]) -> io::Result<usize> {
        if self.reads_left == 0 || self.is_rung {
            return Err(io::Error::from(ErrorKind::WouldBlock));
        }
        self.reads_left -= 1;
        if !self.wait()? {
            return Err(io::Error::from(ErrorKind::WouldBlock));
        }
        match self.stream.read(buf) {
            Err(error) if is_pause(error.kind()) => Err(io::Error::from(ErrorKind::WouldBlock)),
            read => read,
        }
    }
}

impl Write for Paced {
    fn write(&mut self, buf: &[u8]) -> io::Result<usize> {
        self.stream.write(buf)
    }

    fn flush(&mut self) -> io::Result<()> {
        self.stream.flush()
    }
}
