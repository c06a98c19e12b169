ghost use Rattle.std.specs.Prelude.{◌≡◌, ◌≢◌, List, [], Some, IfSome, length};
ghost use Rattle.outside.specs.declared.link.LinkItem.{LinkItem};
ghost use Rattle.outside.specs.Links.{Sends};

use crate::link::{Link, LinkIn, LinkItem, LinkOut, Sent};
use crate::opening::{Opened, Opens};
use crate::schedule::Schedule;
use scalar_val::Bytes;
use std::alloc::Global;
use std::collections::VecDeque;

/// A link in memory: a list of items that come, and a list of what was sent. It tells both, and as a connection it
/// opens as itself.
#[derive(Debug, Drop)]
pub struct MemLink {
    alloc: Global,
    coming: VecDeque<LinkItem>,
    sent: Vec<LinkOut>,
    schedule: Schedule,
}

impl MemLink {
    /// A link over which these items come. The calls whose numbers stand in `failing` fail; `recv`, `send` and `close`
    /// are numbered together, and the first call has number 1.
    pub fn new(alloc: Global, items: Vec<LinkItem>, failing: Vec<u64>) -> MemLink
        ensures coming { ⟦<MemLink as Link>⟧.coming result ≡ Some items.items }
        ensures sent { ⟦<MemLink as Link>⟧.sent result ≡ Some [] }
        ensures faults { ⟦<MemLink as Link>⟧.faults result ≡ 0 }
    {
        MemLink {
            alloc,
            coming: VecDeque::from(items),
            sent: Vec::new(alloc),
            schedule: Schedule::new(failing),
        }
    }

    /// What was sent.
    pub fn sent(&self) -> &[LinkOut]
        ensures { ⟦<MemLink as Link>⟧.sent self.now ≡ Some result.now }
    {
        self.sent.as_slice()
    }

    /// How many items are still to come.
    pub fn left(&self) -> usize
        ensures { (items : List LinkItem) → ⟦<MemLink as Link>⟧.coming self.now ≡ Some items → result ≡ length items }
    {
        self.coming.len()
    }

    /// How often it has failed.
    pub fn faults(&self) -> u64
        ensures { ⟦<MemLink as Link>⟧.faults self.now ≡ result }
    {
        self.schedule.faults
    }
}

/// A copy of the bytes, or none for want of memory.
fn copy_bytes(alloc: Global, bytes: &[u8]) -> Option<Bytes>
    ensures { IfSome result (λ copy. copy ≡ bytes.now) }
{
    match bytes.to_vec(alloc) {
        Ok(copy) => Some(Bytes::of(copy)),
        Err(_) => None,
    }
}

/// Adds one thing to what was sent.
fn keep(sent: &mut Vec<LinkOut>, out: LinkOut) -> Sent
    ensures sent { Sends (Some sent.old.items) (Some sent.new.items) result out }
    ensures no_fault { result ≢ Sent.Failed }
{
    match sent.push(out) {
        Ok(()) => Sent::Done,
        Err(_) => Sent::NoMemory,
    }
}

impl Link for MemLink {
    ghost coming = { λ link. Some link.coming.items };

    ghost sent = { λ link. Some link.sent.items };

    ghost faults = { λ link. link.schedule.faults };

    fn recv(&mut self) -> LinkIn {
        if self.schedule.next_fails() {
            return LinkIn::Failed;
        }
        match self.coming.pop_front() {
            Some(LinkItem::Text(text)) => LinkIn::Text(text),
            Some(LinkItem::Binary) => LinkIn::Binary,
            Some(LinkItem::Idle) => LinkIn::Idle,
            Some(LinkItem::PeerClosed) | None => LinkIn::PeerClosed,
        }
    }

    fn send(&mut self, text: &[u8]) -> Sent {
        if self.schedule.next_fails() {
            return Sent::Failed;
        }
        let Some(text) = copy_bytes(self.alloc, text) else {
            return Sent::NoMemory;
        };
        keep(&mut self.sent, LinkOut::Text(text))
    }

    fn close(&mut self, code: u16, reason: &[u8]) -> Sent {
        if self.schedule.next_fails() {
            return Sent::Failed;
        }
        let Some(reason) = copy_bytes(self.alloc, reason) else {
            return Sent::NoMemory;
        };
        keep(&mut self.sent, LinkOut::Close { code, reason })
    }
}

impl Opens for MemLink {
    type Link = MemLink;

    ghost coming = { λ link. Some link.coming.items };

    ghost sent = { λ link. Some link.sent.items };

    ghost faults = { λ link. link.schedule.faults };

    fn open_link(self) -> Opened<MemLink> {
        Opened::Link(self)
    }
}
