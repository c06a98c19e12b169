//! The works of the server, and their answers.
ghost use Rattle.std.specs.Prelude.{◌≡◌, false};

use connection_server::End;
use std::alloc::Global;
use std::sync::Arc;
use subs_engine::{Engine, Pass, TakeFault};

/// What a work is to do.
#[derive(Drop)]
pub enum Task<N, Q, C, G> {
    /// Opens a connection, and serves it by this number.
    Conn {
        conn: u32,
        from: N,
        clock: C,
    },
    /// Serves the connections of the commit port, one after the other.
    Commits {
        from: Q,
    },
    /// Polls, and makes ticks where `ticks` is true, `refetch_ms` milliseconds apart.
    Poll {
        ticks: bool,
        refetch_ms: u32,
        clock: C,
        gate: G,
    },
}

/// A work of the server: a task, the engine that it is done on, and a pass of its own.
#[derive(Drop)]
pub struct ServeWork<N, Q, C, G> {
    pub alloc: Global,
    pub engine: Arc<Engine, Global>,
    pub pass: Pass,
    pub task: Task<N, Q, C, G>,
    ghost ours: { (pass.lock ≡ engine.value) × (pass.has_turn ≡ false) },
}

/// How the serving of the commit port ended.
#[derive(Clone, Copy, Debug, PartialEq, Eq)]
pub enum PortEnd {
    /// The listener answered that no connection is left.
    Ended,
    /// The listener failed, and its count of faults rose.
    Fault,
    /// All 2^62 turns of the engine's lock are taken and given back.
    Spent,
    /// Memory was refused.
    NoMemory,
}

/// How a work's task ended.
#[derive(Drop)]
pub enum TaskEnd<K, Q, C, S> {
    /// The connection was served over this link.
    Conn { link: K, clock: C, end: End },
    /// The connection didn't open as a link.
    Shut,
    /// The connection found no memory to open.
    NoMemory,
    Commits { from: Q, end: PortEnd },
    Poll { clock: C, end: Result<S, TakeFault> },
}

/// What a work answers: its pass, and how its task ended.
#[derive(Drop)]
pub struct Worked<K, Q, C, S> {
    pub pass: Pass,
    pub end: TaskEnd<K, Q, C, S>,
}
