//! The cursors of streams: where a stream stands after its rows are sent, and the moves of streams to their new cohorts, all or
//! none of them.
#![tactic(auto)]

mod cursor;
mod moves;
#[cfg(test)]
mod tests;

pub use cursor::advance;
pub use moves::{Move, MoveList, rekey};
