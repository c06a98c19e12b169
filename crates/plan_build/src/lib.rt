//! Admission: a request is either admitted, with the plan that is run and the binding that it runs with, or refused with
//! its first fault.
#![tactic(auto)]

mod admission;
mod messages;
mod selecting;

pub use admission::{Admitted, admit, admit_selected};
pub use messages::{fault_code, fault_text};
pub use query_model::{AdmitFault, FaultKind, QueryFault, SubKind};
pub use selecting::select;
