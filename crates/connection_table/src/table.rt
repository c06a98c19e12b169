ghost use Rattle.std.specs.Prelude.{◌≡◌, ℕ, List, [], ◌++◌, ◌∷◌, true, false, length, drop, is_some, option_map, OnOk, OnErr};
ghost use Rattle.std.specs.Option.{option_copied};

use crate::connection::Connection;
use machine::Phase;
use outbox::OutText;
use role_model::Session;
use scalar_val::NoMemory;
use std::alloc::Global;
use std::collections::{BTreeMap, VecDeque};
use std::marker::Model;
use wire_model::CloseReason;

/// The known connections by their numbers. Contracts see them as a list in ascending order of numbers, and beside it
/// the promised texts, by the numbers of their connections: each of them can be queued without new memory.
///
/// A call on a connection costs a logarithm in the number of known ones.
#[derive(Drop)]
pub struct ConnectionTable {
    connections: BTreeMap<u32, Connection>,
    promised: VecDeque<u32>,
}

impl Model for ConnectionTable {
    ghost use Rattle.connection_table.specs.Connected.{Table};

    ghost Value = { Table };

    ghost use Rattle.connection_table.specs.Seen.{seen_table, IsKept};

    ghost view = { λ t. seen_table t.connections t.promised.items };

    ghost invariant = { λ t. IsKept t.connections t.promised.items };
}

impl ConnectionTable {
    ghost use Rattle.connection_table.specs.Connected.{connected_at, phase_of, first_text, live_of, changed, with_new, without, others, opened, acknowledged, closed, with_text, without_first, with_live, without_live};

    /// A table without a connection. It takes no memory.
    pub fn new(alloc: Global) -> ConnectionTable
        ensures connections { result.connections ≡ [] }
        ensures promised { result.promised ≡ [] }
    {
        ConnectionTable {
            connections: BTreeMap::new(alloc),
            promised: VecDeque::new(alloc),
        }
    }

    /// How many connections are known, closed ones among them.
    pub fn len(&self) -> u64
        ensures { result ≡ length self.now.connections }
    {
        self.connections.len() as u64
    }

    /// Whether a connection is known.
    pub fn knows(&self, conn: u32) -> bool
        ensures { result ≡ is_some (connected_at conn self.now.connections) }
    {
        self.connections.contains_key(&conn)
    }

    /// How far a connection has come, or `None` where it isn't known.
    pub fn phase(&self, conn: u32) -> Option<&Phase>
        ensures { option_copied result ≡ option_map phase_of (connected_at conn self.now.connections) }
    {
        match self.connections.get(&conn) {
            Some(connection) => Some(&connection.phase),
            None => None,
        }
    }

    /// The numbers of a connection's live subscriptions, in the order in which they were added; none where it isn't
    /// known.
    pub fn live(&self, conn: u32) -> &[u64]
        ensures { result.now ≡ live_of (connected_at conn self.now.connections) }
    {
        match self.connections.get(&conn) {
            Some(connection) => &connection.live,
            None => &[],
        }
    }

    /// Adds a connection, which is fresh. It needs one that isn't known. For want of memory nothing is added.
    pub fn insert(&mut self, alloc: Global, conn: u32) -> Result<(), NoMemory>
        requires { is_some (connected_at conn self.old.connections) ≡ false }
        ensures ok { OnOk result (self.new.connections ≡ with_new (opened conn) self.old.connections) }
        ensures err { OnErr result (self.new.connections ≡ self.old.connections) }
        ensures promised { self.new.promised ≡ self.old.promised }
    {
        self.connections.insert(conn, Connection::opened(alloc))?;
        Ok(())
    }

    /// Takes a connection out, with its texts and what was promised for it; where it isn't known, nothing. It takes no
    /// memory.
    pub fn remove(&mut self, conn: u32)
        ensures connections { self.new.connections ≡ without conn self.old.connections }
        ensures promised { self.new.promised ≡ others conn self.old.promised }
    {
        self.connections.remove(&conn);
        self.promised.retain(|promised| *promised != conn);
    }

    /// A connection is acknowledged, and acts for a session from here on. Where it isn't known, nothing changes. It
    /// takes no memory.
    pub fn acknowledge(&mut self, conn: u32, session: Session)
        ensures connections { self.new.connections ≡ changed conn (acknowledged session) self.old.connections }
        ensures promised { self.new.promised ≡ self.old.promised }
    {
        match self.connections.get_mut(&conn) {
            Some(connection) => connection.acknowledge(session),
            None => {}
        }
    }

    /// Closes a connection, which then has no live subscription. What is queued for it stays. Where it isn't known,
    /// nothing changes. It takes no memory.
    pub fn close(&mut self, conn: u32, reason: CloseReason)
        ensures connections { self.new.connections ≡ changed conn (closed reason) self.old.connections }
        ensures promised { self.new.promised ≡ self.old.promised }
    {
        match self.connections.get_mut(&conn) {
            Some(connection) => connection.close(reason),
            None => {}
        }
    }

    /// Queues a text for a connection, behind those that wait. Where it isn't known, the text is dropped. For want of
    /// memory nothing is queued, and what was promised stays promised.
    pub fn queue(&mut self, conn: u32, text: OutText) -> Result<(), NoMemory>
        ensures ok { OnOk result (self.new.connections ≡ changed conn (with_text text) self.old.connections) }
        ensures err { OnErr result (self.new.connections ≡ self.old.connections) }
        ensures promised { self.new.promised ≡ self.old.promised }
    {
        match self.connections.get_mut(&conn) {
            Some(connection) => connection.push(text),
            None => Ok(()),
        }
    }

    /// Takes the first text out of a connection's queue. It is `None` where the queue is empty or the connection isn't
    /// known. It takes no memory.
    pub fn pop(&mut self, conn: u32) -> Option<OutText>
        ensures first { result ≡ first_text (connected_at conn self.old.connections) }
        ensures connections { self.new.connections ≡ changed conn without_first self.old.connections }
        ensures promised { self.new.promised ≡ self.old.promised }
    {
        match self.connections.get_mut(&conn) {
            Some(connection) => connection.pop(),
            None => None,
        }
    }

    /// Adds a number behind those of a connection's live subscriptions. Where it isn't known, nothing changes. For want
    /// of memory nothing is added.
    pub fn add_live(&mut self, conn: u32, number: u64) -> Result<(), NoMemory>
        ensures ok { OnOk result (self.new.connections ≡ changed conn (with_live number) self.old.connections) }
        ensures err { OnErr result (self.new.connections ≡ self.old.connections) }
        ensures promised { self.new.promised ≡ self.old.promised }
    {
        match self.connections.get_mut(&conn) {
            Some(connection) => connection.add_live(number),
            None => Ok(()),
        }
    }

    /// Takes a number out of those of a connection's live subscriptions; where it isn't among them, nothing. It takes
    /// no memory.
    pub fn forget(&mut self, conn: u32, number: u64)
        ensures connections { self.new.connections ≡ changed conn (without_live number) self.old.connections }
        ensures promised { self.new.promised ≡ self.old.promised }
    {
        match self.connections.get_mut(&conn) {
            Some(connection) => connection.forget(number),
            None => {}
        }
    }

    /// Promises that one more text can be queued for a connection without new memory. It needs a connection that is
    /// known. For want of memory nothing is promised.
    pub fn promise(&mut self, conn: u32) -> Result<(), NoMemory>
        requires { is_some (connected_at conn self.old.connections) ≡ true }
        ensures ok { OnOk result (self.new.promised ≡ self.old.promised ++ conn ∷ []) }
        ensures err { OnErr result (self.new.promised ≡ self.old.promised) }
        ensures connections { self.new.connections ≡ self.old.connections }
    {
        self.promised.reserve(1)?;
        match self.connections.get_mut(&conn) {
            Some(connection) => connection.promise()?,
            None => unreachable!(),
        }
        self.promised.push_back_reserved(conn);
        Ok(())
    }

    /// Queues the text that was promised first, which has to be one for this connection. It takes no memory.
    pub fn keep_promise(&mut self, conn: u32, text: OutText)
        requires { (rest : List ℕ) × (self.old.promised ≡ conn ∷ rest) }
        ensures promised { self.new.promised ≡ drop 1 self.old.promised }
        ensures connections { self.new.connections ≡ changed conn (with_text text) self.old.connections }
    {
        self.promised.pop_front();
        match self.connections.get_mut(&conn) {
            Some(connection) => connection.keep(text),
            None => unreachable!(),
        }
    }

    /// Gives up all promises. It costs a logarithm for each, and takes no memory.
    pub fn drop_promises(&mut self)
        ensures promised { self.new.promised ≡ [] }
        ensures connections { self.new.connections ≡ self.old.connections }
    {
        while let Some(conn) = self.promised.pop_front() {
            match self.connections.get_mut(&conn) {
                Some(connection) => connection.release(),
                None => unreachable!(),
            }
        }
    }
}
