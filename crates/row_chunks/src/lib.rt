//! Lists of rows in shared chunks: a share copies no row, and a change copies one chunk at most.
#![tactic(auto)]

mod branch;
mod chunk;
mod edit;
mod list;
mod piece;
#[cfg(test)]
mod tests;
mod trunk;
mod walk;

pub use edit::TryCopy;
pub use list::RowChunks;
pub use walk::Walk;
