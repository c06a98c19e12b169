//! The plan of a flat selection for a role, and the session variables that its filters name.
#![tactic(auto)]

mod fields;
mod filter_slots;
mod plans;
mod selects;
mod slot_ref;
mod visits;

pub use plans::plan_of;
pub use visits::selection_slots;
