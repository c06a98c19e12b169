use data_model::{Catalog, ColumnDefList, ColumnList};
use plan_model::{Filter, StrList};
use scalar_val::{List, Str};
use thiserror::Error;

pub type TableEntryList = List<TableEntry>;

pub type LinkEntryList = List<LinkEntry>;

pub type PermissionEntryList = List<PermissionEntry>;

/// Metadata as it is written, with the defaults of the keys that it leaves out.
#[derive(Debug, Drop)]
pub struct Document {
    pub version: i64,
    pub batch_size: u32,
    pub refetch_ms: u32,
    pub admin_secret: Option<Str>,
    pub unauthorized_role: Option<Str>,
    pub tables: TableEntryList,
}

/// A table as metadata writes it: columns, relationships and permissions by their names.
#[derive(Debug, Drop)]
pub struct TableEntry {
    pub name: Str,
    pub key: StrList,
    pub columns: ColumnDefList,
    pub unique: StrList,
    pub max_rows: u32,
    pub object: LinkEntryList,
    pub array: LinkEntryList,
    pub select: PermissionEntryList,
}

/// A relationship as metadata writes it, from columns of its own table to columns of `table`.
#[derive(Debug, Drop)]
pub struct LinkEntry {
    pub name: Str,
    pub table: Str,
    pub from: StrList,
    pub to: StrList,
}

/// A permission as metadata writes it. `filter` is the text of a JSON value.
#[derive(Debug, Drop)]
pub struct PermissionEntry {
    pub role: Str,
    pub columns: StrList,
    pub filter: Str,
    pub limit: Option<u32>,
}

pub type LinkList = List<LinkDef>;

pub type LinkListList = List<LinkList>;

pub type GrantList = List<Grant>;

pub type RoleList = List<RoleDef>;

/// A relationship of a table to the table of number `table`: the related rows are those whose columns `to` equal the
/// row's columns `from`, pair by pair. It gives a list of rows where `many` is true, and else one row or null.
#[derive(Debug, Drop)]
pub struct LinkDef {
    pub name: Str,
    pub many: bool,
    pub table: u32,
    pub from: ColumnList,
    pub to: ColumnList,
}

/// What a role may read of the table of number `table`: these columns of the rows that meet the filter, at most
/// `limit` rows at a time where there is a limit.
#[derive(Debug, Drop)]
pub struct Grant {
    pub table: u32,
    pub columns: ColumnList,
    pub filter: Filter,
    pub limit: Option<u32>,
}

/// A role: its name, the session variables that its filters name, in the order of their slots, and its permissions,
/// at most one for each table.
#[derive(Debug, Drop)]
pub struct RoleDef {
    pub name: Str,
    pub session_names: StrList,
    pub grants: GrantList,
}

/// What is wrong with metadata. Where several faults hold, the first one of this list counts.
#[derive(Clone, Copy, Debug, PartialEq, Eq, Error)]
pub enum MetaFault {
    /// The text has more than 1,048,576 bytes.
    #[error("the metadata has more than 1,048,576 bytes")]
    TooLong,
    /// The text isn't UTF-8 or no TOML document.
    #[error("the metadata is no TOML document in UTF-8")]
    Toml,
    /// There is an unknown key, a required key is missing, or a value is of another type or out of its range.
    #[error("a key is unknown or missing, or a value is of another type or out of its range")]
    BadForm,
    /// The version isn't 1.
    #[error("the version isn't 1")]
    BadVersion,
    /// There are more than 256 tables, or more than 64 columns in one table.
    #[error("there are more than 256 tables, or a table has more than 64 columns")]
    TooMany,
    /// The name of a table, column or relationship isn't a GraphQL name, or begins with `__`.
    #[error("a table, column or relationship has a name that isn't a GraphQL name or begins with `__`")]
    BadName,
    /// Two root fields or two fields of one table share a name, a name stands twice in a list of columns, or a table
    /// has two permissions for one role.
    #[error("a name stands twice, or a table has two permissions for one role")]
    Duplicate,
    /// A relationship names no table.
    #[error("a relationship names no table")]
    NoTable,
    /// A list of columns names a column that its table doesn't have.
    #[error("a list of columns names a column that its table doesn't have")]
    NoColumn,
    /// A key column is nullable, or the two column lists of a relationship differ in length or in a type.
    #[error("a key column is nullable, or the columns of a relationship differ in number or in type")]
    BadKind,
    /// A permission is for the role `admin`.
    #[error("a permission is for the role `admin`")]
    BadRole,
    /// A filter isn't one.
    #[error("the filter of a permission isn't one for its table")]
    BadFilter,
}

/// What metadata says: tables by number, the relationships of each of them, the roles, and the settings. The secret is
/// what a trusted request shows; without one every request is trusted.
#[derive(Debug, Drop)]
pub struct Metadata {
    pub catalog: Catalog,
    pub links: LinkListList,
    pub roles: RoleList,
    pub batch_size: u32,
    pub refetch_ms: u32,
    pub secret: Option<Str>,
    pub unauthorized_role: Option<Str>,
}
