//! Names in the order in which they came, each found at its first place in logarithmic time. `NameSet` owns its names
//! and has each once; `NameIndex` borrows them. One contract holds for both: `contains` and `place` look a name up,
//! `insert` adds it at the end where it isn't there and says whether it was new, and after a refusal the names are as
//! before.
#![tactic(auto)]

mod index;
mod set;
#[cfg(test)]
mod tests;
mod twice;

pub use index::NameIndex;
pub use set::NameSet;
pub use twice::repeats;
