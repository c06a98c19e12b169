ghost use Rattle.std.specs.Prelude.{◌≡◌, ◌≤◌, ℕ, List, Option};
ghost use Rattle.outside.specs.declared.link.LinkItem.{LinkItem};
ghost use Rattle.outside.specs.declared.link.LinkOut.{LinkOut};
ghost use Rattle.outside.specs.Ends.{Rose};
ghost use Rattle.outside.specs.Links.{Receives, Sends};

use scalar_val::{Bytes, Str};

/// One item of what a peer sends over a link.
#[derive(Debug, Drop)]
pub enum LinkItem {
    /// A text message.
    Text(Str),

    /// A binary message.
    Binary,

    /// Nothing came for a while.
    Idle,

    /// The peer closed the link.
    PeerClosed,
}

/// One item of what was sent over a link.
#[derive(Debug, Drop)]
pub enum LinkOut {
    /// The bytes of a text message.
    Text(Bytes),

    /// A close, with its code and the bytes of its reason.
    Close { code: u16, reason: Bytes },
}

/// What a link answers to one `recv`.
#[derive(Debug, Drop)]
pub enum LinkIn {
    /// A text message came.
    Text(Str),

    /// A binary message came.
    Binary,

    /// Nothing came for a while.
    Idle,

    /// The peer closed the link.
    PeerClosed,

    /// The link failed in this call, and its count of faults rose. Over a WebSocket a message of more than 1,048,576
    /// bytes is a fault.
    Failed,

    /// Memory was refused. The next item may have been taken.
    NoMemory,
}

/// What a link answers to one `send` or `close`.
#[derive(Clone, Copy, Debug, PartialEq, Eq)]
pub enum Sent {
    Done,

    /// The link failed in this call, and its count of faults rose. Nothing was sent.
    Failed,

    /// Memory was refused. Nothing was sent.
    NoMemory,
}

/// A connection over which whole messages come and go, as a WebSocket. A link counts its faults, up to 2^64 - 1, and
/// the count never falls.
pub trait Link {
    /// The items that are still to come, where the link tells them. Those in memory do; a real socket doesn't.
    ghost coming: { Self → Option (List LinkItem) };

    /// What was sent, where the link tells it.
    ghost sent: { Self → Option (List LinkOut) };

    /// How often it has failed.
    ghost faults: { Self → ℕ };

    /// Gives the next item of what comes. Past its end that is `PeerClosed`.
    fn recv(&mut self) -> LinkIn
        ensures coming { Receives (coming self.old) (coming self.new) result }
        ensures sent { sent self.new ≡ sent self.old }
        ensures later { faults self.old ≤ faults self.new }
        ensures failed { result ≡ LinkIn.Failed → Rose (faults self.old) (faults self.new) };

    /// Sends a text message.
    fn send(&mut self, text: &[u8]) -> Sent
        ensures coming { coming self.new ≡ coming self.old }
        ensures sent { Sends (sent self.old) (sent self.new) result (LinkOut.Text text.now) }
        ensures later { faults self.old ≤ faults self.new }
        ensures failed { result ≡ Sent.Failed → Rose (faults self.old) (faults self.new) };

    /// Closes the link with a code and a reason.
    fn close(&mut self, code: u16, reason: &[u8]) -> Sent
        ensures coming { coming self.new ≡ coming self.old }
        ensures sent { Sends (sent self.old) (sent self.new) result (LinkOut.Close code reason.now) }
        ensures later { faults self.old ≤ faults self.new }
        ensures failed { result ≡ Sent.Failed → Rose (faults self.old) (faults self.new) };
}
