ghost use Rattle.std.specs.Prelude.{◌≡◌, ◌≤◌, ℕ, List, Option, false};
ghost use Rattle.outside.specs.Ends.{Rose};
ghost use Rattle.outside.specs.Listeners.{Accepts, Listens};

/// What a listener answers to one `accept`.
#[derive(Debug, Drop)]
pub enum Accepted<C> {
    /// The next connection.
    Conn(C),

    /// No connection is left, and none will come.
    End,

    /// The listener failed in this call, and its count of faults rose.
    Failed,
}

/// Where connections come from, as a TCP port. A listener counts its faults, up to 2^64 - 1, and the count never falls.
pub trait Listener {
    type Conn;

    /// The connections that are still to come, where the listener tells them. One in memory does; a real port doesn't.
    ghost coming: { Self → Option (List Self.Conn) };

    /// The last port on which it began to listen, if there is one, where the listener tells it.
    ghost last_port: { Self → Option (Option ℕ) };

    /// How often it has failed.
    ghost faults: { Self → ℕ };

    /// Listens on a port, 0 to 65,535, and answers true, or false where it failed in this call.
    fn listen(&mut self, port: u16) -> bool
        ensures coming { coming self.new ≡ coming self.old }
        ensures last_port { Listens (last_port self.old) (last_port self.new) result port }
        ensures later { faults self.old ≤ faults self.new }
        ensures failed { result ≡ false → Rose (faults self.old) (faults self.new) };

    /// Waits for the next connection and gives it.
    fn accept(&mut self) -> Accepted<Self::Conn>
        ensures coming { Accepts (coming self.old) (coming self.new) result }
        ensures last_port { last_port self.new ≡ last_port self.old }
        ensures later { faults self.old ≤ faults self.new }
        ensures failed { result ≡ Accepted.Failed → Rose (faults self.old) (faults self.new) };
}
