//! A plan's selections, each with the rows of its table and with its keys as they are written.
use crate::source::Source;
use scalar_val::{Bytes, List};
use sqlite_items::Boxed;

pub(crate) type PartList<'a> = List<Part<'a>>;

/// What a row's object has under one key. The key is written with its quotes and its colon.
#[derive(Drop)]
#[cycle(node)]
pub(crate) enum Part<'a> {
    Column { key: Bytes, column: u32 },
    /// The key and the type's name.
    Typename { text: Bytes },
    Link { key: Bytes, node: Boxed<Node<'a>> },
}

/// A selection, what it takes its rows from, and what the objects of its rows have.
#[derive(Drop)]
#[cycle(node)]
pub(crate) struct Node<'a> {
    pub(crate) source: Source<'a>,
    pub(crate) parts: PartList<'a>,
}
