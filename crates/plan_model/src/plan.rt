use crate::filter::{Filter, Operand};
use data_model::ColumnList;
use scalar_val::{List, Str};
use sqlite_items::Boxed;

pub type StrList = List<Str>;

pub type OrderList = List<Order>;

pub type FieldList = List<Field>;

/// One entry of an `order_by`.
#[derive(Clone, Copy, Debug, PartialEq, Eq)]
pub struct Order {
    pub column: u32,
    pub descending: bool,
    pub nulls_first: bool,
}

/// How many rows of a table a selection gives: a list of them, the first one or null, or the next rows of a stream,
/// at most `batch` of those beyond the cursor.
#[derive(Debug, Drop)]
pub enum Shape {
    List,
    One,
    Stream {
        column: u32,
        descending: bool,
        batch: Operand,
    },
}

/// One field of a row's object, under its response key.
#[derive(Debug, Drop)]
#[cycle(plan)]
pub enum Field {
    Column {
        key: Str,
        column: u32,
    },
    Typename {
        key: Str,
    },
    /// A relationship: the related rows are those whose columns `to` equal the row's columns `from`, pair by pair.
    Link {
        key: Str,
        from: ColumnList,
        to: ColumnList,
        select: Boxed<Select>,
    },
}

/// A selection of rows of one table. `cap` is the permission's limit.
#[derive(Debug, Drop)]
#[cycle(plan)]
pub struct Select {
    pub table: u32,
    pub shape: Shape,
    pub filter: Filter,
    pub order: OrderList,
    pub limit: Option<Operand>,
    pub offset: Option<Operand>,
    pub cap: Option<u32>,
    pub fields: FieldList,
}

/// What is run for an operation: the root field's response key, the type name of each table number, and the root's
/// selection.
#[derive(Debug, Drop)]
pub struct Plan {
    pub key: Str,
    pub names: StrList,
    pub root: Select,
}
