//! What a locked state says of itself.
ghost use Rattle.std.specs.Prelude.{List, length, ◌≡◌};

/// A state that says for which lists of events it stands. The first five members are seen by contracts alone.
pub trait Stands {
    /// One change of the state.
    type Event;
    /// Plain data that no event changes.
    type Basis;

    /// The state is one that these events, in this order, lead to.
    ghost stands: { Self → List Self.Event → Type 0 };

    /// The data of this state.
    ghost basis: { Self → Self.Basis };

    /// Any data. It stands where a pass was joined to another and has none of its own any more.
    ghost some_basis: { Self.Basis };

    /// How many events the lists have that the state stands for.
    fn count(&self) -> u64
        ensures { (events : List Self.Event) → stands self.now events → result ≡ length events };
}

/// The event that a state has made, seen by contracts alone. Each call of `HistoryLock::give` names it.
pub trait Made<S: Stands> {
    ghost event: { S.Event };
}
