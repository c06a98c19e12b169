ghost use Rattle.std.specs.Prelude.{[], ◌∷◌, ◌++◌, ℕ, List};

use std::sync::Wait;

/// A clock. It can't fail, and any number may come as the time.
pub trait Clock {
    /// These are its answers so far, in order. A clock that tells none of its answers says this of no list.
    ghost tells: { Self → List ℕ → Type 0 };

    /// The time in milliseconds, from some start of the clock's own.
    fn now_ms(&mut self) -> u64
        ensures { (answers : List ℕ) → tells self.old answers → tells self.new (answers ++ result ∷ []) };

    /// Rests for so many milliseconds, which may be nothing at all.
    fn rest<R: Wait>(&mut self, rt: &R, ms: u64)
        ensures { (answers : List ℕ) → tells self.old answers → tells self.new answers };
}
