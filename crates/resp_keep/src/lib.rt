//! Texts of results that are kept to be compared with the next ones, their digests, and texts that several owners share.
#![tactic(auto)]

mod kept;
mod shared;
#[cfg(test)]
mod tests;

pub use kept::{Digest, Kept, digest_of, same, same_text};
pub use shared::SharedKept;
