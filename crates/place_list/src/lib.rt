//! Lists of places: in ascending order, each at most once.
#![tactic(auto)]

mod list;
#[cfg(test)]
mod tests;

pub use list::PlaceList;
