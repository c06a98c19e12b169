//! The state, while a pass has the turn.
ghost use Rattle.std.specs.Prelude.{◌≡◌};
ghost use Rattle.std.specs.Borrow.{Lends, sem};
ghost use Rattle.history_lock.specs.contracts.turn.Turn.{the_row};

use std::marker::Model;

/// The state, which `HistoryLock::turn` took and `HistoryLock::give` wants back. Contracts see it as the state.
///
/// It can't be dropped: a turn that is taken has to be given.
pub struct Turn<S> {
    pub(crate) state: S,
}

impl<S> Model for Turn<S> {
    ghost use Rattle.std.specs.Prelude.{◌≡◌};

    ghost Value = { S };

    ghost view = { λ t. t.state };
}

impl<S> Turn<S> {
    /// The state, on which exactly one event is to be made.
    pub fn state(&mut self) -> &mut S
        ensures* writes_back { sem 𝓛 (Lends (the_row S.row) S.row self.entry result (λ w. w)) }
        ensures value { result.now ≡ self.old }
    {
        &mut self.state
    }
}
