/// What became of a writing call: done, or the first reason against it, with nothing changed.
#[derive(Clone, Copy, Debug, PartialEq, Eq)]
pub enum Stored {
    Done,
    /// No row has the key of an update or a delete.
    NoRow,
    /// A row has the key of an insert.
    KeyTaken,
    /// Another row has the same value, not null, in a unique column.
    UniqueTaken,
    /// The table has as many rows as it may have.
    TableFull,
}
