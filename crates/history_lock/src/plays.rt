//! What each step on the table tells the pass that makes it.
ghost use Rattle.history_lock.specs.Steps.{Numbered, Compares, Draws, Looks, Takes, Puts, Raises, Rings};
ghost use Rattle.history_lock.specs.Views.{copy, informed, spent};

use crate::known::Known;
use crate::stands::{Made, Stands};
use atomic_table::{Join, Play, Split};
use std::marker::PhantomData;

// Loads the tickets, and reads the pass's own number.
pub(crate) struct Number;

impl<S, E, G> Play<Option<S>, Known<E, G>> for Number {
    ghost then = { Numbered };
}

// Loads the tickets, and compares what the pass has seen with what a joined one had.
pub(crate) struct Compare;

impl<S, E, G> Play<Option<S>, Known<E, G>> for Compare {
    ghost then = { Compares };
}

// Draws a ticket.
pub(crate) struct Draw;

impl<S, E, G> Play<Option<S>, Known<E, G>> for Draw {
    ghost then = { Draws };
}

// Loads the ticket that is served, and so sees the history.
pub(crate) struct Look;

impl<S, E, G> Play<Option<S>, Known<E, G>> for Look {
    ghost then = { Looks };
}

// Takes the state out of its slot.
pub(crate) struct Take;

impl<S: Stands> Play<Option<S>, Known<S::Event, S::Basis>> for Take {
    ghost then = { Takes S.stands S.basis };
}

// Puts the state into its slot.
pub(crate) struct Put;

impl<S, E, G> Play<Option<S>, Known<E, G>> for Put {
    ghost then = { Puts };
}

// Raises the ticket that is served, which is the one event.
pub(crate) struct Raise<M> {
    made: PhantomData<M>,
}

impl<S: Stands, M: Made<S>> Play<Option<S>, Known<S::Event, S::Basis>> for Raise<M> {
    ghost then = { Raises M.event };
}

// Rings a bell.
pub(crate) struct Ring;

impl<S, E, G> Play<Option<S>, Known<E, G>> for Ring {
    ghost then = { Rings };
}

// Splits a pass off.
pub(crate) struct Copy;

impl<E, G> Split<Known<E, G>> for Copy {
    ghost left = { λ v. v };

    ghost right = { copy };
}

// Joins a pass to another.
pub(crate) struct Inform<S> {
    state: PhantomData<S>,
}

impl<S: Stands> Join<Known<S::Event, S::Basis>> for Inform<S> {
    ghost both = { informed };

    ghost spent = { spent S.some_basis };
}
