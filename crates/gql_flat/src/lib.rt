//! The flat selection of a GraphQL operation, and its canonical text.
#![tactic(auto)]

mod collecting;
mod copies;
mod fields;
mod flattening;
mod groups;

pub use flattening::flatten;
pub use gql_canon::canon;
pub use request_model::{Flat, FlatFault, FlatField, FlatFieldList, Word};
