//! Who a connection acts for, by the headers in the payload of its `connection_init`.
#![tactic(auto)]

mod headers;
mod identity;
#[cfg(test)]
mod tests;

pub use identity::identify;
pub use role_model::{Identity, Session, StrMap};
