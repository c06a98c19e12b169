//! The lock.
ghost use Rattle.std.specs.Prelude.{◌≡◌, ◌≢◌, ℕ, ◌+◌, ◌^◌, ◌<◌, ◌≤◌, [], ◌∷◌, ◌++◌, length, Some, None, true, false};
ghost use Rattle.std.specs.Prelude.{IsOk, IfOk, IfErr};
ghost use Rattle.history_lock.specs.History.{entry, events, own, longer, Extends};

use crate::known::StateTable;
use crate::pass::Pass;
use crate::plays::{Compare, Copy, Inform, Number};
use crate::stands::{Made, Stands};
use crate::steps::{HOME, TICKET, TURNS, WORDS, draw, raise, ring, take, wait_for};
use crate::turn::Turn;
use atomic_table::Table;
use scalar_val::NoMemory;
use std::alloc::Global;
use std::marker::Model;
use std::snapshot::Snapshot;
use std::sync::Wait;

/// All 2^62 turns of the lock are taken and given back.
#[derive(Clone, Copy, Debug, PartialEq, Eq)]
pub struct Spent;

/// A lock round a state, whose history all its passes share. Contracts see it as a `LockId`, which lock it is.
#[derive(Drop)]
pub struct HistoryLock<S: Stands> {
    table: StateTable<S>,
}

impl<S: Stands> Model for HistoryLock<S> {
    ghost use Rattle.std.specs.Prelude.{◌≡◌};
    ghost use Rattle.history_lock.specs.PassViews.{LockId, table_id_coded};
    ghost use Rattle.history_lock.specs.Rule.{word_count};

    ghost Value = { LockId };

    ghost coded = { table_id_coded };

    ghost view = { λ l. l.table.shared.table_id };

    ghost invariant = { λ l. (l.table.shared.table_id.words ≡ word_count) × (l.table.shared.table_id.slots ≡ 1) };
}

impl<S: Stands> HistoryLock<S> {
    /// A lock round a state that stands for no events, and its first pass, whose number is 0. The history is empty.
    ///
    /// `NoMemory`: memory was refused. The state is then dropped.
    pub fn new(alloc: Global, first: S) -> Result<(HistoryLock<S>, Pass<S>), NoMemory>
    where
        S: Drop,
        requires { S.stands first [] }
        ensures { IfOk result (λ r.
            r.1 ≡ record { lock = r.0; number = 0; basis = S.basis first; seen = []; has_turn = false }) }
    {
        let about = Snapshot::of(&first);
        let mut slots = Vec::new(alloc);
        slots.push(Some(first))?;
        let mut words = [0; WORDS];
        words[HOME] = 1;
        match Table::new(alloc, &words, slots, &about) {
            Ok((table, seat)) => Ok((HistoryLock { table }, Pass { seat })),
            Err(_) => Err(NoMemory),
        }
    }

    /// A second pass, which has seen as much. Its number is another than that of the first, and no entry has it.
    ///
    /// It takes no memory, so the answer is never `NoMemory`.
    pub fn split(&self, pass: &mut Pass<S>) -> Result<Pass<S>, NoMemory>
        requires { (pass.old.lock ≡ self.now) × (pass.old.has_turn ≡ false) }
        ensures made { IsOk result }
        ensures same { pass.new ≡ pass.old }
        ensures second { IfOk result (λ p.
            (p ≡ record pass.old { number = p.number })
            × (own p.number p.seen ≡ [])
            × (p.number ≢ pass.old.number)) }
    {
        let mut seat = self.table.shared.split_seat::<Copy>(&mut pass.seat);
        self.table.shared.load::<Number>(&mut seat, TICKET);
        Ok(Pass { seat })
    }

    /// Ends the other pass. The first then knows the longer of the two lists, of which the other list is a prefix, and
    /// beyond its own list neither pass has an entry there. The two had different numbers and the same basis.
    pub fn join(&self, pass: &mut Pass<S>, other: Pass<S>)
        requires pass { (pass.old.lock ≡ self.now) × (pass.old.has_turn ≡ false) }
        requires other { (other.lock ≡ self.now) × (other.has_turn ≡ false) }
        ensures same { pass.new ≡ record pass.old { seen = longer pass.old.seen other.seen } }
        ensures first { Extends pass.old.number pass.old.seen pass.new.seen }
        ensures second { Extends other.number other.seen pass.new.seen }
        ensures apart { pass.old.number ≢ other.number }
        ensures basis { pass.old.basis ≡ other.basis }
    {
        let Pass { seat: other } = other;
        self.table
            .shared
            .join_seat::<Inform<S>>(&mut pass.seat, other);
        self.table.shared.load::<Compare>(&mut pass.seat, TICKET);
    }

    /// Takes the state, once all earlier turns are given back. It sleeps until then, after a few looks where only one
    /// of them is left. The pass has then seen the whole history, and the state stands for it.
    ///
    /// `Spent`: all 2^62 turns were taken and given back.
    pub fn turn<R: Wait>(&self, rt: &R, pass: &mut Pass<S>) -> Result<Turn<S>, Spent>
        requires { (pass.old.lock ≡ self.now) × (pass.old.has_turn ≡ false) }
        ensures same { (pass.new.lock ≡ pass.old.lock)
            × (pass.new.number ≡ pass.old.number)
            × (pass.new.basis ≡ pass.old.basis) }
        ensures seen { Extends pass.old.number pass.old.seen pass.new.seen }
        ensures turn { IfOk result (λ t. (pass.new.has_turn ≡ true) × (length pass.new.seen < 2 ^ 62)) }
        ensures state { IfOk result (λ t. S.stands t (events pass.new.seen) × (S.basis t ≡ pass.new.basis)) }
        ensures spent { IfErr result (λ _. (pass.new.has_turn ≡ false) × (length pass.new.seen ≡ 2 ^ 62)) }
    {
        let seat = &mut pass.seat;
        let Some(ticket) = draw(rt, &self.table, seat) else {
            wait_for(rt, &self.table, seat, TURNS);
            return Err(Spent);
        };
        wait_for(rt, &self.table, seat, ticket);
        let state = take(rt, &self.table, seat, ticket);
        Ok(Turn { state })
    }

    /// Adds the one event that the state has made, with the pass's number, and gives the state back.
    pub fn give<M: Made<S>>(&self, pass: &mut Pass<S>, turn: Turn<S>)
        requires pass { (pass.old.lock ≡ self.now) × (pass.old.has_turn ≡ true) }
        requires state { S.stands turn (events pass.old.seen ++ M.event ∷ []) × (S.basis turn ≡ pass.old.basis) }
        ensures { pass.new ≡ record pass.old {
          seen = pass.old.seen ++ entry pass.old.number M.event ∷ [];
          has_turn = false;
        } }
    {
        let Turn { state } = turn;
        raise::<S, M>(&self.table, &mut pass.seat, state);
        ring(&self.table, &mut pass.seat);
    }
}
