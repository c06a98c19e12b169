ghost use Rattle.std.specs.Prelude.{◌≡◌, ◌≤◌, ℕ, List, Option, false};
ghost use Rattle.outside.specs.Ends.{Rose};
ghost use Rattle.outside.specs.Works.{Starts};

use std::sync::Wait;

/// Something to be run once, by whoever it is handed to.
pub trait Work: Send + Drop {
    type Out;

    /// Which answers suit it.
    ghost suits: { Self → Self.Out → Type 0 };

    /// Does the work, and gives an answer that suits it. It may wait, and then needn't return.
    fn run<R: Wait>(self, rt: &R) -> Self::Out
        ensures { suits self result };
}

/// Whoever starts works, as threads of their own. A spawner counts its faults, up to 2^64 - 1, and the count never
/// falls.
pub trait Spawner<W: Work + 'static> {
    /// The works that it started, in order, where the spawner tells them. One in memory does; the real one doesn't.
    ghost started: { Self → Option (List W) };

    /// How often it has failed.
    ghost faults: { Self → ℕ };

    /// Starts a work and answers true, or drops it and answers false where the spawner failed in this call.
    fn start(&mut self, work: W) -> bool
        ensures started { Starts (started self.old) (started self.new) result work }
        ensures later { faults self.old ≤ faults self.new }
        ensures failed { result ≡ false → Rose (faults self.old) (faults self.new) };
}
