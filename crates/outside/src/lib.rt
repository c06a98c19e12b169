//! The small traits over which the server's code is generic, the ends in memory that tests hand in, and the adapters
//! to what the system has.
#![tactic(auto)]

mod clock;
mod link;
mod list_clock;
mod listener;
mod mem_link;
mod mem_listener;
mod mem_spawner;
mod memory;
mod opening;
mod schedule;
mod sink;
mod source;
mod standard;
mod sys_clock;
mod tcp_port;
mod thread_spawner;
mod work;

pub use clock::Clock;
pub use link::{Link, LinkIn, LinkItem, LinkOut, Sent};
pub use list_clock::ListClock;
pub use listener::{Accepted, Listener};
pub use mem_link::MemLink;
pub use mem_listener::MemListener;
pub use mem_spawner::MemSpawner;
pub use memory::{MemSink, MemSource};
pub use opening::{Opened, Opens, Parts, Splits};
pub use sink::{Put, Sink};
pub use source::{Got, Source};
pub use standard::{StdSink, StdSource};
pub use sys_clock::SysClock;
pub use tcp_port::TcpPort;
pub use thread_spawner::ThreadSpawner;
pub use work::{Spawner, Work};

#[cfg(test)]
mod tests;
