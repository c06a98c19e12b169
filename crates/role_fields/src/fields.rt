//! What fields are for a role.

use role_schema::LinkDef;

/// What a field of the root is for a role: the rows of a table, the row of a key, the next rows of a stream, or
/// nothing that the role sees. Each names its table by number.
#[derive(Clone, Copy, Debug, PartialEq, Eq)]
pub enum Root {
    RowsOf(u32),
    RowOf(u32),
    StreamOf(u32),
    NoRoot,
}

/// What a field of a table's object is for a role: the name of the object's type, a column by its number, a
/// relationship, or nothing that the role sees.
#[derive(Clone, Copy)]
pub enum Meant<'a> {
    Typename,
    AColumn(u32),
    ALink(&'a LinkDef),
    Unseen,
}
