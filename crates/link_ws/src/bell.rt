use std::io;
use std::io::{Read, Write};
use std::net::Net;
use std::os::fd::{AsRawFd, RawFd};
use std::os::unix::net::UnixStream;

/// What all links of a port hear beside their own sockets. That a ring is heard is tested and not proved.
///
/// It is a pair of sockets of the system's. Every link waits on the one for the moment at which a byte comes, and none
/// takes it, so a ring is one write, however many links there are.
#[derive(Drop)]
pub struct Bell {
    rope: UnixStream,
    sound: UnixStream,
}

impl Bell {
    /// A bell. It is refused where the system has no more files.
    pub fn new<R: Net>(rt: &R) -> io::Result<Bell> {
        let (rope, sound) = UnixStream::pair(rt)?;
        let bell = Bell { rope, sound };
        bell.strike()?;
        Ok(bell)
    }

    /// Ends the `recv` of every link that waits, and for every other link the next wait.
    pub fn ring(&self) {
        // One byte stays: a wait ends only where there is still something to read.
        if self.strike().is_ok() {
            let _taken = (&self.sound).read(&mut [0]);
        }
    }

    fn strike(&self) -> io::Result<usize> {
        (&self.rope).write(&[0])
    }
}

impl AsRawFd for Bell {
    fn as_raw_fd(&self) -> RawFd {
        self.sound.as_raw_fd()
    }
}
