ghost use Rattle.std.specs.Prelude.{◌≡◌, ◌≤◌, ℕ, List, Option, None};
ghost use Rattle.outside.specs.declared.link.LinkItem.{LinkItem};
ghost use Rattle.outside.specs.declared.link.LinkOut.{LinkOut};
ghost use Rattle.outside.specs.Openings.{IfLink, IfBoth, Tells};

use crate::link::Link;
use crate::sink::Sink;
use crate::source::Source;

/// What a connection opened as.
#[derive(Debug, Drop)]
pub enum Opened<K> {
    Link(K),

    /// The peer and this side didn't agree on a link. The connection is gone.
    Refused,

    /// Memory was refused. The connection is gone.
    NoMemory,
}

/// A connection that opens as a link, as a TCP stream does by the WebSocket handshake.
pub trait Opens: Send + 'static {
    type Link: Link;

    /// The items that will come over the link, where the connection tells them.
    ghost coming: { Self → Option (List LinkItem) };

    /// What was sent already, where the connection tells it.
    ghost sent: { Self → Option (List LinkOut) };

    /// The faults that the link begins with.
    ghost faults: { Self → ℕ };

    /// Opens the link. A connection that tells what comes or was sent opens as a link that tells the same, and is never
    /// refused.
    fn open_link(self) -> Opened<Self::Link>
        ensures coming { IfLink result (λ k. Tells (coming self) (Self.Link.coming k)) }
        ensures sent { IfLink result (λ k. Tells (sent self) (Self.Link.sent k)) }
        ensures faults { IfLink result (λ k. Self.Link.faults k ≡ faults self) }
        ensures refused { result ≡ Opened.Refused → (coming self ≡ None) × (sent self ≡ None) };
}

/// What a connection split into.
#[derive(Debug, Drop)]
pub enum Parts<A, B> {
    /// A source of what comes and a sink for what is sent.
    Both(A, B),

    /// The connection couldn't be split, and is gone.
    Failed,

    /// Memory was refused. The connection is gone.
    NoMemory,
}

/// A connection that splits into a source and a sink, as a TCP stream does.
pub trait Splits: Send + 'static {
    type Source: Source;

    type Sink: Sink;

    /// The bytes that will come, where the connection tells them.
    ghost left: { Self → Option (List ℕ) };

    /// The bytes that were written already, where the connection tells them.
    ghost written: { Self → Option (List ℕ) };

    /// Both of its parts will tell that they never fail.
    ghost never_fails: { Self → Type 0 };

    /// Splits the connection. One that tells what comes or was written splits into parts that tell the same, and doesn't
    /// fail.
    fn split(self) -> Parts<Self::Source, Self::Sink>
        ensures left { IfBoth result (λ source sink. Tells (left self) (Self.Source.left source)) }
        ensures written { IfBoth result (λ source sink. Tells (written self) (Self.Sink.written sink)) }
        ensures steady { never_fails self → IfBoth result (λ source sink. Self.Source.never_fails source × Self.Sink.never_fails sink) }
        ensures failed { result ≡ Parts.Failed → (left self ≡ None) × (written self ≡ None) };
}
