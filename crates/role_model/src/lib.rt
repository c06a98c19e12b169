//! The plain types of metadata, roles and sessions, and in `specs/` what they mean.
#![tactic(auto)]

mod metadata;
mod session;
mod str_map;
#[cfg(test)]
mod tests;

pub use metadata::{
    Document, Grant, GrantList, LinkDef, LinkEntry, LinkEntryList, LinkList, LinkListList,
    MetaFault, Metadata, PermissionEntry, PermissionEntryList, RoleDef, RoleList, TableEntry,
    TableEntryList,
};
pub use session::{Identity, Session};
pub use str_map::StrMap;
