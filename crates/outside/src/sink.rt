ghost use Rattle.std.specs.Prelude.{◌≡◌, ◌≢◌, ◌<◌, ℕ, List, length};
ghost use Rattle.std.specs.declared.option.Option.{Option};
ghost use Rattle.outside.specs.Ends.{IsPutCounted, Adds, PutHasCause};

/// What a sink answers to one `write`.
#[derive(Clone, Copy, Debug, PartialEq, Eq)]
pub enum Put {
    /// So many bytes of the front were written: 1 or more, and no more than were given.
    Bytes(usize),

    /// The sink failed in this call, and its count of faults rose. Nothing was written.
    Failed,

    /// Memory was refused. Nothing was written.
    NoMemory,
}

/// Where bytes go to. A sink counts its faults, up to 2^64 - 1, and the count never falls.
pub trait Sink {
    /// The bytes that were written, where the sink tells them. Those in memory do; a real file doesn't.
    ghost written: { Self → Option (List ℕ) };

    /// How often it has failed.
    ghost faults: { Self → ℕ };

    /// It tells that it never fails, from now on.
    ghost never_fails: { Self → Type 0 };

    /// Writes a front of bytes that aren't empty, and says how many.
    fn write(&mut self, bytes: &[u8]) -> Put
        requires { 0 < length bytes.now }
        ensures count { IsPutCounted result (length bytes.now) }
        ensures bytes { Adds (written self.old) (written self.new) result bytes.now }
        ensures cause { PutHasCause (faults self.old) (faults self.new) result }
        ensures steady { never_fails self.old → never_fails self.new × (result ≢ Put.Failed) × (faults self.new ≡ faults self.old) };
}
