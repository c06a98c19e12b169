ghost use Rattle.std.specs.Prelude.{◌≡◌, ◌≢◌, ◌<◌, ℕ, List, length};
ghost use Rattle.std.specs.declared.option.Option.{Option};
ghost use Rattle.outside.specs.Ends.{IsCounted, Takes, HasCause};

/// What a source answers to one `read`.
#[derive(Clone, Copy, Debug, PartialEq, Eq)]
pub enum Got {
    /// So many bytes stand at the front of the buffer: 1 or more, and no more than the buffer holds.
    Bytes(usize),

    /// Nothing is left.
    End,

    /// The source failed in this call, and its count of faults rose. What is left is as it was.
    Failed,
}

/// Where bytes come from, as a file, a pipe or a socket. A source counts its faults, up to 2^64 - 1, and the count
/// never falls.
pub trait Source {
    /// The bytes that are left, where the source tells them. Those in memory do; a real file doesn't.
    ghost left: { Self → Option (List ℕ) };

    /// How often it has failed.
    ghost faults: { Self → ℕ };

    /// It tells that it never fails, from now on.
    ghost never_fails: { Self → Type 0 };

    /// Puts the next bytes at the front of a buffer that isn't empty, and says how many.
    fn read(&mut self, buf: &mut [u8]) -> Got
        requires { 0 < length buf.old }
        ensures count { IsCounted result (length buf.new) }
        ensures bytes { Takes (left self.old) (left self.new) result buf.new }
        ensures cause { HasCause (faults self.old) (faults self.new) result }
        ensures steady { never_fails self.old → never_fails self.new × (result ≢ Got.Failed) × (faults self.new ≡ faults self.old) };
}
