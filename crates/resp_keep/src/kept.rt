ghost use Rattle.std.specs.Prelude.{◌≡◌, ◌↔◌, IsTrue};
ghost use Rattle.sha2.specs.Sha256.{sha256};

use scalar_val::Bytes;
use sha2::{Digest as Hasher, Sha256};
use std::marker::Model;

/// The SHA-256 of a text (FIPS 180-4).
#[derive(Clone, Copy, Debug, PartialEq, Eq)]
pub struct Digest {
    pub bytes: [u8; 32],
}

/// A text that is kept to be compared with the next one. Contracts see its bytes.
#[derive(Debug, Drop)]
pub struct Kept {
    text: Bytes,
}

impl Model for Kept {
    ghost use Rattle.std.specs.Prelude.{List, ℕ};

    ghost Value = { List ℕ };

    ghost view = { λ k. k.text };
}

impl Kept {
    /// Keeps a text, which is moved and not copied. No digest is made.
    pub fn new(text: Bytes) -> Kept
        ensures { result ≡ text }
    {
        Kept { text }
    }

    pub fn text(&self) -> &Bytes
        ensures { result.now ≡ self.now }
    {
        &self.text
    }

    /// The digest of the text, which is made at each call.
    pub fn digest(&self) -> Digest
        ensures { result.bytes ≡ sha256 self.now }
    {
        digest_of(&self.text)
    }
}

/// The digest of a text. It takes no memory.
pub fn digest_of(text: &Bytes) -> Digest
    ensures { result.bytes ≡ sha256 text.now }
{
    Digest {
        bytes: Sha256::digest(text.as_slice()),
    }
}

/// Whether a text is the one that is kept. Texts of unequal lengths are told apart by these, others at the first byte
/// that differs. It takes no memory and makes no digest.
pub fn same_text(kept: &Kept, text: &Bytes) -> bool
    ensures { IsTrue result ↔ (kept.now ≡ text.now) }
{
    let (before, now) = (kept.text.as_slice(), text.as_slice());
    before.len() == now.len() && before == now
}

/// Whether a text is the one that is kept, for a caller that has the text's digest. The answer is that of `same_text`,
/// which is quicker than to make the digest of what is kept; so the given one is of no use to it, whatever it is.
pub fn same(kept: &Kept, text: &Bytes, _digest: &Digest) -> bool
    ensures { IsTrue result ↔ (kept.now ≡ text.now) }
{
    same_text(kept, text)
}
