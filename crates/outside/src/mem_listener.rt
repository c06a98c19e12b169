ghost use Rattle.std.specs.Prelude.{◌≡◌, List, Some, None, length};

use crate::listener::{Accepted, Listener};
use crate::schedule::Schedule;
use std::collections::VecDeque;

/// A listener in memory: a list of connections, and the last port on which it began to listen. It tells both, and gives
/// its connections whether it listens or not.
#[derive(Debug, Drop)]
pub struct MemListener<C> {
    coming: VecDeque<C>,
    last_port: Option<u16>,
    schedule: Schedule,
}

impl<C> MemListener<C> {
    /// A listener that gives these connections, in order. The calls whose numbers stand in `failing` fail; `listen` and
    /// `accept` are numbered together, and the first call has number 1.
    pub fn new(connections: Vec<C>, failing: Vec<u64>) -> MemListener<C>
        ensures coming { ⟦<MemListener<C> as Listener>⟧.coming result ≡ Some connections.items }
        ensures last_port { ⟦<MemListener<C> as Listener>⟧.last_port result ≡ Some None }
        ensures faults { ⟦<MemListener<C> as Listener>⟧.faults result ≡ 0 }
    {
        MemListener {
            coming: VecDeque::from(connections),
            last_port: None,
            schedule: Schedule::new(failing),
        }
    }

    /// The last port on which it began to listen.
    pub fn last_port(&self) -> Option<u16>
        ensures { ⟦<MemListener<C> as Listener>⟧.last_port self.now ≡ Some result }
    {
        self.last_port
    }

    /// How many connections are left.
    pub fn left(&self) -> usize
        ensures { (connections : List C) → ⟦<MemListener<C> as Listener>⟧.coming self.now ≡ Some connections → result ≡ length connections }
    {
        self.coming.len()
    }

    /// How often it has failed.
    pub fn faults(&self) -> u64
        ensures { ⟦<MemListener<C> as Listener>⟧.faults self.now ≡ result }
    {
        self.schedule.faults
    }
}

impl<C> Listener for MemListener<C> {
    type Conn = C;

    ghost coming = { λ listener. Some listener.coming.items };

    ghost last_port = { λ listener. Some listener.last_port };

    ghost faults = { λ listener. listener.schedule.faults };

    fn listen(&mut self, port: u16) -> bool {
        if self.schedule.next_fails() {
            return false;
        }
        self.last_port = Some(port);
        true
    }

    fn accept(&mut self) -> Accepted<C> {
        if self.schedule.next_fails() {
            return Accepted::Failed;
        }
        match self.coming.pop_front() {
            Some(connection) => Accepted::Conn(connection),
            None => Accepted::End,
        }
    }
}
