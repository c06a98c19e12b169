//! A pass.
use crate::known::PassSeat;
use crate::stands::Stands;
use std::marker::Model;

/// A thread's part in the history of one lock.
///
/// Contracts see it as a `PassView`: which lock it is of, its number, the data that no event changes, the beginning of
/// the history that it has seen, and whether it holds the turn.
#[derive(Drop)]
pub struct Pass<S: Stands> {
    pub(crate) seat: PassSeat<S>,
}

impl<S: Stands> Model for Pass<S> {
    ghost use Rattle.history_lock.specs.PassViews.{PassView, pass_view, Whole};

    ghost Value = { PassView S.Event S.Basis };

    ghost view = { λ p. pass_view p.seat.table_id p.seat.me };

    ghost invariant = { λ p. Whole p.seat.me };
}
