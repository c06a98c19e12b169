//! What a pass knows, and the table that it steps on. No value of `Entry` or `Known` is made: contracts alone see them.
use crate::stands::Stands;
use atomic_table::{Seat, Table, TableRule};
use std::alloc::Global;
use std::collections::LinkedList;
use std::snapshot::Snapshot;

/// An entry of the history: the number of the pass that gave the event, and the event.
pub struct Entry<E> {
    pub pass: u64,
    pub event: E,
}

/// What a pass knows.
pub struct Known<E, G> {
    /// Its number, once it has read it. A pass that was split off reads it before `split` answers.
    pub number: Option<u64>,
    /// The number of the pass that it was split from, until it has read its own.
    pub parent: Option<u64>,
    /// The beginning of the history that it has seen.
    pub seen: LinkedList<Entry<E>>,
    /// The number of a pass that was joined to it, until the two lists are compared, what that one had seen, and the
    /// data that it knew.
    pub teller: Option<u64>,
    pub told: LinkedList<Entry<E>>,
    pub told_basis: Option<G>,
    /// The data of the first state.
    pub basis: G,
    /// Whether it was joined to another pass, and so never steps again.
    pub spent: bool,
    /// The ticket that it holds.
    pub ticket: Option<u64>,
}

/// The rule that all steps keep.
pub struct OneHistory;

impl<S: Stands> TableRule<Option<S>, Known<S::Event, S::Basis>, Snapshot<S>> for OneHistory {
    ghost use Rattle.std.specs.Prelude.{[], Some, None};
    ghost use Rattle.history_lock.specs.Rule.{Kept};
    ghost use Rattle.history_lock.specs.Views.{knows};

    ghost holds = { λ key. Kept S.stands S.basis key.value };

    ghost first = { λ key. knows (Some 0) None [] (S.basis key.value) };
}

/// The words and the slot that all passes of one lock step on. Its key is the first state, as contracts see it.
pub type StateTable<S> = Table<
    Option<S>,
    Known<<S as Stands>::Event, <S as Stands>::Basis>,
    Snapshot<S>,
    OneHistory,
    Global,
>;

/// A pass's place at the table.
pub type PassSeat<S> = Seat<Option<S>, Known<<S as Stands>::Event, <S as Stands>::Basis>>;
