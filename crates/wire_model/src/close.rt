ghost use Rattle.std.specs.Prelude.{◌≡◌, ◌+◌, ◌<◌, ◌≤◌, ◌++◌, codes, length, slice_index, take};
ghost use Rattle.wire_model.specs.CloseReasons as closes;
ghost use Rattle.wire_model.specs.CloseReasons.{boundary, continues, exists_text, within};

use std::marker::Model;

/// The most bytes of a reason, which is what RFC 6455, section 5.5, leaves for it.
const MOST_BYTES: usize = 123;

/// The reason of a close, of at most 123 bytes. Contracts see their list.
#[derive(Debug, Drop)]
pub struct ReasonText {
    bytes: [u8; 123],
    len: usize,
}

impl Model for ReasonText {
    ghost use Rattle.std.specs.Prelude.{List, ℕ, take, ◌≤◌};

    ghost Value = { List ℕ };

    ghost view = { λ t. take t.len t.bytes };

    ghost invariant = { λ t. t.len ≤ 123 };
}

impl ReasonText {
    fn as_bytes(&self) -> &[u8]
        ensures bytes { result.now ≡ self.now }
        ensures short { length result.now ≤ 123 }
    {
        &self.bytes[..self.len]
    }

    fn copy(&self) -> ReasonText
        ensures { result ≡ self.now }
    {
        ReasonText {
            bytes: self.bytes,
            len: self.len,
        }
    }
}

/// Why the server closes a connection.
#[derive(Debug, Drop)]
pub enum CloseReason {
    Invalid,
    Unauthorized,
    Forbidden,
    InitTimeout,
    /// An id that is live already, with the reason, in which the id stands, cut to what a reason may have.
    Exists(ReasonText),
    TooManyInits,
}

impl CloseReason {
    /// The code of the close, from 4400 to 4499.
    pub fn code(&self) -> u16
        ensures { result ≡ closes.code self.now }
    {
        match self {
            CloseReason::Invalid => 4400,
            CloseReason::Unauthorized => 4401,
            CloseReason::Forbidden => 4403,
            CloseReason::InitTimeout => 4408,
            CloseReason::Exists(_) => 4409,
            CloseReason::TooManyInits => 4429,
        }
    }

    /// The reason, in UTF-8, in at most 123 bytes.
    pub fn text(&self) -> &[u8]
        ensures reason { result.now ≡ closes.reason self.now }
        ensures short { length result.now ≤ 123 }
    {
        match self {
            CloseReason::Invalid => b"Invalid message",
            CloseReason::Unauthorized => b"Unauthorized",
            CloseReason::Forbidden => b"Forbidden",
            CloseReason::InitTimeout => b"Connection initialisation timeout",
            CloseReason::Exists(text) => text.as_bytes(),
            CloseReason::TooManyInits => b"Too many initialisation requests",
        }
    }

    /// An equal reason. It takes no memory.
    pub fn copy(&self) -> CloseReason
        ensures { result ≡ self.now }
    {
        match self {
            CloseReason::Invalid => CloseReason::Invalid,
            CloseReason::Unauthorized => CloseReason::Unauthorized,
            CloseReason::Forbidden => CloseReason::Forbidden,
            CloseReason::InitTimeout => CloseReason::InitTimeout,
            CloseReason::Exists(text) => CloseReason::Exists(text.copy()),
            CloseReason::TooManyInits => CloseReason::TooManyInits,
        }
    }
}

/// A byte of UTF-8 that begins no character.
fn continues(byte: u8) -> bool
    ensures { result ≡ continues byte }
{
    128 <= byte && byte < 192
}

/// A byte of the uncut reason.
#[tactic(auto, using(crate::proofs::Cut::exists_len, crate::proofs::Cut::first_part, crate::proofs::Cut::middle_part, crate::proofs::Cut::last_part))]
fn byte_at(id: &str, at: usize) -> u8
    requires { at < length (exists_text id.now) }
    ensures { result ≡ slice_index (exists_text id.now) at }
{
    let front = b"Subscriber for ";
    let back = b" already exists";
    if at < front.len() {
        return front[at];
    }
    let at = at - front.len();
    if at < id.len() {
        return id.as_bytes()[at];
    }
    back[at - id.len()]
}

/// The greatest place up to `end` of the uncut reason that doesn't lie within a character.
#[tactic(auto, using(crate::proofs::Cut::steps_down, crate::proofs::Cut::stays))]
fn boundary(id: &str, mut end: usize) -> usize
    requires { end < length (exists_text id.now) }
    ensures place { result ≡ boundary (exists_text id.now) end }
    ensures within { result ≤ end }
{
    while end > 0 && continues(byte_at(id, end)) {
        end -= 1;
    }
    end
}

/// How many bytes of the uncut reason are kept.
#[tactic(auto, using(crate::proofs::Cut::exists_len, crate::proofs::Cut::short_within, crate::proofs::Cut::long_within))]
fn kept(id: &str) -> usize
    ensures front { take result (exists_text id.now) ≡ within closes.most_bytes (exists_text id.now) }
    ensures whole { result ≤ length (exists_text id.now) }
    ensures short { result ≤ 123 }
{
    let whole = id.len() + 30;
    if whole <= MOST_BYTES {
        return whole;
    }
    boundary(id, MOST_BYTES)
}

/// The first bytes of the uncut reason.
fn front(id: &str, len: usize) -> [u8; 123]
    requires whole { len ≤ length (exists_text id.now) }
    requires short { len ≤ 123 }
    ensures { take len result ≡ take len (exists_text id.now) }
{
    let mut bytes = [0; 123];
    for at in 0..len {
        bytes[at] = byte_at(id, at);
    }
    bytes
}

/// The close for a second subscription whose id is live. Its reason names the id, and is cut to the longest prefix of
/// whole characters within 123 bytes. It takes no memory.
pub fn close_exists(id: &str) -> CloseReason
    ensures { result ≡ closes.close_exists id.now }
{
    let len = kept(id);
    let bytes = front(id, len);
    CloseReason::Exists(ReasonText { bytes, len })
}
