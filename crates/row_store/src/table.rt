ghost use Rattle.std.specs.Prelude.{◌≡◌, [], ◌<◌, ◌≤◌, length, insert, remove, slice_set, OnOk, OnErr};
ghost use Rattle.std.specs.List.{list_any};
ghost use Rattle.data_model.specs.Rows.{FitsTable, clash};

use crate::row::Row;
use crate::taken::{
    Taken, after_delete, after_insert, after_update, clashes_by, clashes_elsewhere_by, is_of,
    taken_in,
};
use data_model::TableDef;
use scalar_val::{List, NoMemory, Val};
use std::alloc::Global;
use std::marker::Model;

/// So many changes read the rows through before the index is made, which takes as long as some dozens of scans.
const SCANS: u32 = 16;

/// Rows, and an index of their unique columns where one was made. Contracts see the rows alone. The index is a cache:
/// it is dropped where memory is refused.
#[derive(Drop)]
pub(crate) struct Table {
    rows: List<Row>,
    taken: Option<Taken>,
    /// How many changes have read the rows through in place of an index, up to the most that do.
    scans: u32,
}

impl Model for Table {
    ghost use Rattle.std.specs.Prelude.{IfSome};
    ghost use Rattle.data_model.specs.Rows.{Rows};
    ghost use Rattle.row_store.specs.Taken.{StandsFor};

    ghost Value = { Rows };

    ghost view = { λ t. t.rows };

    ghost invariant = { λ t. IfSome t.taken (StandsFor t.rows) };
}

fn has_index(taken: &Option<Taken>, table: &TableDef) -> bool {
    match taken {
        Some(taken) => is_of(taken, table),
        None => false,
    }
}

impl Table {
    /// Rows with no index.
    pub(crate) fn of(rows: List<Row>) -> Table
        ensures { result ≡ rows }
    {
        Table {
            rows,
            taken: None,
            scans: 0,
        }
    }

    pub(crate) fn as_slice(&self) -> &[Row]
        ensures { result.now ≡ self.now }
    {
        self.rows.as_slice()
    }

    /// Makes the index where the table has unique columns, it isn't there, and changes enough were made without it.
    pub(crate) fn make_index(&mut self, alloc: Global, table: &TableDef)
        ensures { self.new ≡ self.old }
    {
        if table.unique.is_empty() {
            return;
        }
        if has_index(&self.taken, table) {
            return;
        }
        if self.scans < SCANS {
            self.scans += 1;
            return;
        }
        if let Ok(taken) = taken_in(alloc, table, self.rows.as_slice()) {
            self.taken = Some(taken);
        }
    }

    /// Whether values clash with one of the rows.
    pub(crate) fn clashes(&self, alloc: Global, table: &TableDef, cells: &[Val]) -> bool
        ensures { result ≡ list_any (clash table.now cells.now) self.now }
    {
        clashes_by(alloc, table, &self.taken, self.rows.as_slice(), cells)
    }

    /// Whether values clash with a row other than the one at a place.
    pub(crate) fn clashes_elsewhere(
        &self,
        alloc: Global,
        table: &TableDef,
        at: usize,
        cells: &[Val],
    ) -> bool
        requires range { at < length self.now }
        requires fits { FitsTable table.now self.now }
        ensures { result ≡ list_any (clash table.now cells.now) (remove self.now at) }
    {
        clashes_elsewhere_by(alloc, table, &self.taken, self.rows.as_slice(), at, cells)
    }

    /// Puts a row at a place.
    pub(crate) fn insert(&mut self, alloc: Global, at: usize, row: Row) -> Result<(), NoMemory>
        requires { at ≤ length self.old }
        ensures ok { OnOk result (self.new ≡ insert self.old at row) }
        ensures err { OnErr result (self.new ≡ self.old) }
    {
        let taken = self.taken.take();
        let taken = after_insert(alloc, taken, self.rows.as_slice(), at, row.cells());
        if self.rows.insert(at, row).is_err() {
            return Err(NoMemory);
        }
        self.taken = taken;
        Ok(())
    }

    /// Puts a row in the place of another.
    pub(crate) fn set(&mut self, alloc: Global, table: &TableDef, at: usize, row: Row)
        requires range { at < length self.old }
        requires fits { FitsTable table.now self.old }
        ensures { self.new ≡ slice_set self.old at row }
    {
        let taken = self.taken.take();
        let rows = self.rows.as_slice();
        let taken = after_update(alloc, table, taken, rows, at, row.cells());
        self.rows.set(at, row);
        self.taken = taken;
    }

    /// Takes out the row at a place.
    pub(crate) fn remove(&mut self, alloc: Global, table: &TableDef, at: usize)
        requires range { at < length self.old }
        requires fits { FitsTable table.now self.old }
        ensures { self.new ≡ remove self.old at }
    {
        let taken = self.taken.take();
        let taken = after_delete(alloc, table, taken, self.rows.as_slice(), at);
        drop(self.rows.remove(at));
        self.taken = taken;
    }
}
