//! Metadata as it is read from its text, and what a role sees of the tables.
#![tactic(auto)]

mod columns;
mod grants;
mod links;
mod meta;
mod numbers;
#[cfg(test)]
mod tests;
mod view;

pub use meta::{Meta, MetaReadFault};
pub use role_model::{LinkDef, MetaFault};
pub use view::RoleView;
