//! The plain types of admitted queries and of refusals, and in `specs/` what queries, their admission, their results
//! and their plans mean.
#![tactic(auto)]

mod fault;
mod kind;
mod session;
mod variable;

pub use fault::{AdmitFault, FaultKind, QueryFault};
pub use kind::SubKind;
pub use session::{SessionSlot, SessionSlotList, SessionValue, SessionValueList};
pub use variable::{VarType, Variable, VariableList};
