ghost use Rattle.std.specs.Prelude.{◌≡◌, [], ◌∷◌, ◌++◌, ◌+◌, ◌<◌, ◌≤◌, drop, slice_get, IsOk, IfErr, OnOk, OnErr};

use crate::text::OutText;
use scalar_val::NoMemory;
use std::alloc::Global;
use std::collections::VecDeque;
use std::marker::Model;

/// The texts of a connection that wait to be sent, the first to leave first. Contracts see them as a list, and beside it
/// the spare: how many more fit without new memory.
#[derive(Drop)]
pub struct Outbox {
    texts: VecDeque<OutText>,
}

impl Model for Outbox {
    ghost use Rattle.outbox.specs.Queue.{Queue};

    ghost Value = { Queue };

    ghost use Rattle.outbox.specs.Queue.{seen};

    ghost view = { seen };
}

impl Outbox {
    /// A queue without a text, which takes no memory.
    pub fn new(alloc: Global) -> Outbox
        ensures { result.texts ≡ [] }
    {
        let texts = VecDeque::new(alloc);
        Outbox { texts }
    }

    /// Makes the spare at least `more`. It is refused only where the spare was less, and then nothing is lost.
    pub fn reserve(&mut self, more: usize) -> Result<(), NoMemory>
        ensures texts { self.new.texts ≡ self.old.texts }
        ensures ok { OnOk result (more ≤ self.new.spare) }
        ensures refused { OnErr result (self.old.spare < more) }
        ensures kept { self.old.spare ≤ self.new.spare }
    {
        self.texts.try_reserve(more)?;
        Ok(())
    }

    /// Adds a text at the end, or hands it back for want of memory, which comes only where the spare is 0.
    pub fn push(&mut self, text: OutText) -> Result<(), OutText>
        ensures ok { OnOk result (self.new.texts ≡ self.old.texts ++ text ∷ []) }
        ensures err { OnErr result (self.new.texts ≡ self.old.texts) }
        ensures handed_back { IfErr result (λ back. back ≡ text) }
        ensures spare { 0 < self.old.spare → IsOk result }
        ensures lowers { self.old.spare ≤ self.new.spare + 1 }
    {
        match self.texts.push_back(text) {
            Ok(()) => Ok(()),
            Err(refused) => Err(refused.value),
        }
    }

    /// Takes out the first text. It takes no memory.
    pub fn pop_one(&mut self) -> Option<OutText>
        ensures first { result ≡ slice_get self.old.texts 0 }
        ensures rest { self.new.texts ≡ drop 1 self.old.texts }
        ensures spare { self.old.spare ≤ self.new.spare }
    {
        self.texts.pop_front()
    }
}
