use scalar_val::{Kind, List, Str};

/// A column of a table.
#[derive(Debug, Drop)]
pub struct Column {
    /// Its name, which no other column of the table has.
    pub name: Str,
    /// The kind of its values.
    pub kind: Kind,
    /// Whether null may stand in it.
    pub nullable: bool,
}

/// The columns of a table, in the order of a row's values.
pub type ColumnDefList = List<Column>;

/// Columns by their places in the table, from 0.
pub type ColumnList = List<u32>;

/// A table as its metadata gives it.
#[derive(Debug, Drop)]
pub struct TableDef {
    /// Its name, which no other table has.
    pub name: Str,
    pub columns: ColumnDefList,
    /// The columns of the key, in its order. No two rows have equal values in all of them.
    pub key: ColumnList,
    /// Columns that are unique, each by itself: no two rows have the same value in one, but for null.
    pub unique: ColumnList,
    /// The most rows that the table may have.
    pub max_rows: u32,
}

/// Tables by their places, from 0.
pub type TableDefList = List<TableDef>;

/// The tables of a database.
#[derive(Debug, Drop)]
pub struct Catalog {
    pub tables: TableDefList,
}
