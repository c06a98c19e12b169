ghost use Rattle.std.specs.Prelude.{◌≡◌, ◌+◌, ◌^◌, ◌<◌, ℕ, slice_get, OnOk, OnErr};
ghost use Rattle.connection_table.specs.Connected.{same, opened, acknowledged, closed, with_text, without_first, with_live, without_live};

use machine::Phase;
use outbox::{OutText, Outbox};
use role_model::Session;
use scalar_val::NoMemory;
use std::alloc::Global;
use wire_model::CloseReason;

/// What the table holds of a connection.
#[derive(Drop)]
pub(crate) struct Connection {
    pub(crate) phase: Phase,
    pub(crate) queue: Outbox,
    pub(crate) live: Vec<u64>,
    /// How many of the promised texts are for it.
    pub(crate) promises: usize,
}

impl Connection {
    ghost use Rattle.connection_table.specs.Seen.{seen, HasRoom, Becomes};

    /// One that was opened, which takes no memory.
    pub(crate) fn opened(alloc: Global) -> Connection
        ensures seen { (n : ℕ) → seen n result ≡ opened n }
        ensures promises { result.promises ≡ 0 }
    {
        Connection {
            phase: Phase::Fresh,
            queue: Outbox::new(alloc),
            live: Vec::new(alloc),
            promises: 0,
        }
    }

    pub(crate) fn acknowledge(&mut self, session: Session)
        ensures { Becomes (acknowledged session) self.old self.new }
    {
        self.phase = Phase::Acknowledged { session };
    }

    pub(crate) fn close(&mut self, reason: CloseReason)
        ensures { Becomes (closed reason) self.old self.new }
    {
        self.phase = Phase::Closed { reason };
        self.live.clear();
    }

    /// Queues a text, and leaves the room for the promised ones.
    pub(crate) fn push(&mut self, text: OutText) -> Result<(), NoMemory>
        requires { self.old.promises < 2 ^ 63 }
        ensures ok { OnOk result (Becomes (with_text text) self.old self.new) }
        ensures err { OnErr result (Becomes same self.old self.new) }
    {
        self.queue.reserve(self.promises + 1)?;
        match self.queue.push(text) {
            Ok(()) => Ok(()),
            Err(_back) => Err(NoMemory),
        }
    }

    /// Makes room for one more promised text.
    pub(crate) fn promise(&mut self) -> Result<(), NoMemory>
        requires few { self.old.promises < 2 ^ 63 }
        requires room { HasRoom self.old }
        ensures same { (n : ℕ) → seen n self.new ≡ seen n self.old }
        ensures ok { OnOk result (self.new.promises ≡ self.old.promises + 1) }
        ensures err { OnErr result (self.new.promises ≡ self.old.promises) }
        ensures room { HasRoom self.new }
    {
        self.queue.reserve(self.promises + 1)?;
        self.promises += 1;
        Ok(())
    }

    /// Queues a promised text.
    pub(crate) fn keep(&mut self, text: OutText)
        requires some { 0 < self.old.promises }
        requires room { HasRoom self.old }
        ensures is { (n : ℕ) → seen n self.new ≡ with_text text (seen n self.old) }
        ensures promises { self.new.promises + 1 ≡ self.old.promises }
        ensures room { HasRoom self.new }
    {
        self.promises -= 1;
        if self.queue.push(text).is_err() {
            unreachable!()
        }
    }

    /// Gives up one promised text.
    pub(crate) fn release(&mut self)
        requires some { 0 < self.old.promises }
        requires room { HasRoom self.old }
        ensures same { (n : ℕ) → seen n self.new ≡ seen n self.old }
        ensures promises { self.new.promises + 1 ≡ self.old.promises }
        ensures room { HasRoom self.new }
    {
        self.promises -= 1;
    }

    pub(crate) fn pop(&mut self) -> Option<OutText>
        ensures first { result ≡ slice_get self.old.queue.texts 0 }
        ensures rest { Becomes without_first self.old self.new }
    {
        self.queue.pop_one()
    }

    pub(crate) fn add_live(&mut self, number: u64) -> Result<(), NoMemory>
        ensures ok { OnOk result (Becomes (with_live number) self.old self.new) }
        ensures err { OnErr result (Becomes same self.old self.new) }
    {
        self.live.push(number)?;
        Ok(())
    }

    pub(crate) fn forget(&mut self, number: u64)
        ensures { Becomes (without_live number) self.old self.new }
    {
        self.live.retain(|live| *live != number);
    }
}
