ghost use Rattle.std.specs.Prelude.{◌≡◌, [], ◌∷◌, ◌++◌, ◌<◌, length, slice_get, IsTrue, IfErr, OnOk, OnErr, OnSome};
ghost use Rattle.std.specs.Option.{option_copied};
ghost use Rattle.data_model.specs.Cells.{are_cells};

use scalar_val::{List, Str, Val};
use std::alloc::Global;
use std::marker::Model;

/// A new value for the column at a place, from 0.
#[derive(Debug, Drop)]
pub struct SetCell {
    pub column: u32,
    pub value: Val,
}

/// Why a change is refused. Where several hold, the first in this order is given.
#[derive(Clone, Copy, Debug, PartialEq, Eq)]
pub enum Reason {
    /// The table doesn't exist.
    NoTable,
    /// A row names no column of the table, a key names other columns than the key's, or `set` names no column or one of
    /// the key.
    NoColumn,
    /// A value that isn't null doesn't fit its column.
    WrongKind,
    /// Null is given for a column that isn't nullable, or an insert leaves such a column out.
    NullGiven,
    /// No row has the key of an update or a delete.
    NoRow,
    /// A row has the key of an insert.
    KeyTaken,
    /// Another row has the same value, not null, in a unique column.
    UniqueTaken,
    /// An insert finds as many rows as the table may have.
    TableFull,
}

/// A refused transaction: the number of the first change at fault, from 1, and its reason.
#[derive(Clone, Copy, Debug, PartialEq, Eq)]
pub struct TxFault {
    pub change: u64,
    pub reason: Reason,
}

/// A value for the column of a name, as its JSON gives it: null, a boolean, an integer as a bigint, or a string as a text.
#[derive(Debug, Drop)]
pub struct TxCell {
    pub column: Str,
    pub value: Val,
}

/// Cells that ascend strictly by column name in bytes, with values as JSON gives them. Contracts see their list.
#[derive(Debug, Drop)]
pub struct TxCells {
    items: List<TxCell>,
}

impl Model for TxCells {
    ghost use Rattle.std.specs.Prelude.{List, IsTrue};
    ghost use Rattle.data_model.specs.declared.transaction.TxCell.{TxCell};

    ghost Value = { List TxCell };

    ghost use Rattle.data_model.specs.Cells.{are_cells};

    ghost view = { λ a. a.items };

    ghost invariant = { λ a. IsTrue (are_cells a.items) };
}

impl TxCells {
    pub fn new(alloc: Global) -> TxCells
        ensures { result ≡ [] }
    {
        TxCells {
            items: List::new(alloc),
        }
    }

    pub fn len(&self) -> usize
        ensures { result ≡ length self.now }
    {
        self.items.len()
    }

    /// The cell at a place from 0, or `None` past the end.
    pub fn get(&self, at: usize) -> Option<&TxCell>
        ensures value { option_copied result ≡ slice_get self.now at }
        ensures within { OnSome result (at < length self.now) }
    {
        self.items.get(at)
    }

    pub fn as_slice(&self) -> &[TxCell]
        ensures value { result.now ≡ self.now }
        ensures cells { IsTrue (are_cells self.now) }
    {
        self.items.as_slice()
    }

    /// Adds a cell, or hands it back for want of memory. Its column's name comes after all others by bytes.
    pub fn push(&mut self, cell: TxCell) -> Result<(), TxCell>
        requires { IsTrue (are_cells (self.old ++ cell ∷ [])) }
        ensures ok { OnOk result (self.new ≡ self.old ++ cell ∷ []) }
        ensures err { OnErr result (self.new ≡ self.old) }
        ensures handed_back { IfErr result (λ back. back ≡ cell) }
    {
        self.items.push(cell)
    }
}

/// One change of a transaction, by the names that its JSON gives.
#[derive(Debug, Drop)]
pub enum TxChange {
    /// A new row; columns that it leaves out are null.
    Insert {
        table: Str,
        row: TxCells,
    },
    /// New values in the row with this key.
    Update {
        table: Str,
        key: TxCells,
        set: TxCells,
    },
    /// No row with this key any more.
    Delete {
        table: Str,
        key: TxCells,
    },
}

/// A transaction: its changes, in order. Each sees the result of the one before.
pub type Tx = List<TxChange>;
