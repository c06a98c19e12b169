ghost use Rattle.std.specs.Prelude.{◌≡◌, [], ◌+◌, ◌≤◌, ◌<◌, map, length, drop, slice_get, is_some, if◌then◌else◌, IsTrue, IfOk};
ghost use Rattle.std.specs.Option.{option_copied};
ghost use Rattle.std.specs.Arc.{arc_value};
ghost use Rattle.std.specs.List.{list_all};
ghost use Rattle.data_model.specs.declared.catalog.TableDef.{TableDef};
ghost use Rattle.data_model.specs.Rows.{Fits, Rows, no_rows, row_fits, may_stand, inserted, updated, deleted, first_reason, insert_tests, update_tests, delete_tests};
ghost use Rattle.row_store.specs.Held.{is_numbered, table_at, rows_at, with_rows};
ghost use Rattle.row_store.specs.Stored.{reason_of, after};

use crate::changes::{delete_at, insert_at, update_at};
use crate::copying::copy_catalog;
use crate::row::Row;
use crate::stored::Stored;
use crate::table::Table;
use crate::tables::rows_of;
use data_model::{Catalog, SetCell, TableDef};
use scalar_val::{List, NoMemory, Steps, Val};
use std::alloc::Global;
use std::marker::Model;
use std::sync::Arc;
use std::sync::ledger::Ledger;

/// The values of a row, in the order of its table's columns.
pub type ValList = List<Val>;

/// A database that fits the catalog it was made over, whose places are numbers of 32 bits. Contracts see the catalog and the rows of each table, in the
/// catalog's order. Shares have their tables in common until one of them changes.
#[derive(Drop)]
pub struct Snapshot {
    catalog: Arc<Catalog>,
    tables: Vec<Arc<Table>>,
}

impl Model for Snapshot {
    ghost use Rattle.row_store.specs.Held.{Held};

    ghost Value = { Held };

    ghost use Rattle.row_store.specs.Seen.{seen, IsFit};

    ghost view = { seen };

    ghost invariant = { IsFit };
}

/// The rows of a table that are still to be given, in ascending order of their keys.
#[derive(Drop)]
pub struct Scan<'a> {
    rest: &'a [Row],
}

impl<'a> Model for Scan<'a> {
    ghost use Rattle.data_model.specs.Rows.{Rows};

    ghost Value = { Rows };

    ghost view = { λ s. s.rest.now };
}

impl<'a> Scan<'a> {
    /// The next row, or `None` at the end. A row that is given counts one step.
    pub fn next<L: Ledger>(&mut self, steps: &mut Steps<L>) -> Option<&'a Row>
        ensures row { option_copied result ≡ slice_get self.old 0 }
        ensures rest { self.new ≡ drop 1 self.old }
        ensures steps { steps.new ≡ steps.old + (if is_some result then 1 else 0) }
    {
        let [row, rest @ ..] = self.rest else {
            return None;
        };
        self.rest = rest;
        steps.tick();
        Some(row)
    }

    /// All rows that are left. Each counts one step.
    pub fn rest<L: Ledger>(self, steps: &mut Steps<L>) -> &'a [Row]
        ensures rows { result.now ≡ self.entry }
        ensures steps { steps.new ≡ steps.old + length self.entry }
    {
        count_each(self.rest, steps);
        self.rest
    }
}

/// Counts a step for each row. Nothing of it is left at run time.
fn count_each<L: Ledger>(rows: &[Row], steps: &mut Steps<L>)
    ensures { steps.new ≡ steps.old + length rows.now }
{
    for _row in rows {
        steps.tick();
    }
}

fn share_tables(alloc: Global, tables: &[Arc<Table>]) -> Result<Vec<Arc<Table>>, NoMemory>
    ensures { IfOk result (λ shares. map (λ rows. arc_value rows) shares.items ≡ map (λ rows. arc_value rows) tables.now) }
{
    let mut shares = Vec::with_capacity(alloc, tables.len())?;
    for rows in tables {
        shares.push(Arc::try_clone(rows)?)?;
    }
    Ok(shares)
}

fn empty_tables(alloc: Global, tables: &[TableDef]) -> Result<Vec<Arc<Table>>, NoMemory>
    ensures { IfOk result (λ made. map (λ rows. arc_value rows) made.items ≡ map (λ (t : TableDef). []) tables.now) }
{
    let mut made = Vec::with_capacity(alloc, tables.len())?;
    for _table in tables {
        made.push(Arc::new(alloc, Table::of(List::new(alloc)))?)?;
    }
    Ok(made)
}

impl Snapshot {
    /// Empty tables over a copy of the catalog, whose places of tables and of columns are numbers of 32 bits.
    pub fn new(alloc: Global, catalog: &Catalog) -> Result<Snapshot, NoMemory>
        requires { IsTrue (is_numbered catalog.now) }
        ensures catalog { IfOk result (λ s. s.catalog ≡ catalog.now) }
        ensures tables { IfOk result (λ s. s.tables ≡ no_rows catalog.now) }
    {
        let tables = empty_tables(alloc, catalog.tables.as_slice())?;
        let catalog = Arc::new(alloc, copy_catalog(alloc, catalog)?)?;
        Ok(Snapshot { catalog, tables })
    }

    /// An equal snapshot, which has all tables in common with this one. No row is copied.
    pub fn share(&self, alloc: Global) -> Result<Snapshot, NoMemory>
        ensures { IfOk result (λ s. s ≡ self.now) }
    {
        let catalog = Arc::try_clone(&self.catalog)?;
        let tables = share_tables(alloc, self.tables.as_slice())?;
        Ok(Snapshot { catalog, tables })
    }

    /// Tells a proof that the database fits its catalog; it does nothing.
    pub fn fits(&self)
        ensures { Fits self.now.catalog self.now.tables }
    {
        let _ = &self.tables;
    }

    /// Tells a proof that the catalog's places are numbers of 32 bits; it does nothing.
    pub fn numbered(&self)
        ensures { IsTrue (is_numbered self.now.catalog) }
    {
        let _ = &self.tables;
    }

    /// The first column of the key of the table at a place, from 0. `None` where there is no such table.
    pub fn key_column(&self, table: u32) -> Option<u32>
        ensures { result ≡ slice_get (table_at self.now table).key 0 }
    {
        let catalog: &Catalog = &self.catalog;
        match catalog.tables.get(table as usize) {
            Some(table) => table.key.get(0).copied(),
            None => None,
        }
    }

    /// The rows of the table at a place, from 0, in ascending order of their keys.
    pub fn scan(&self, table: u32) -> Scan<'_>
        requires { table < length self.now.tables }
        ensures { result ≡ rows_at self.now table }
    {
        Scan {
            rest: rows_of(&self.tables[table as usize]),
        }
    }

    /// Inserts a row with a value for each column, each of its column's kind, and null where the column is nullable. A
    /// refusal gives the first reason against it. After a refusal, and for want of memory, nothing is changed. It counts at
    /// most a step for each row of the table, and one.
    pub fn insert<L: Ledger>(
        &mut self,
        alloc: Global,
        table: u32,
        cells: ValList,
        steps: &mut Steps<L>,
    ) -> Result<Stored, NoMemory>
        requires range { table < length self.old.tables }
        requires row { IsTrue (row_fits (table_at self.old table).columns cells) }
        ensures answer { IfOk result (λ stored. reason_of stored ≡ first_reason (insert_tests (table_at self.old table) cells (rows_at self.old table))) }
        ensures state { self.new ≡ after result self.old (with_rows self.old table (inserted (table_at self.old table) cells (rows_at self.old table))) }
        ensures catalog { self.new.catalog ≡ self.old.catalog }
        ensures steps { steps.new ≤ steps.old + (length (rows_at self.old table) + 1) }
    {
        let catalog: &Catalog = &self.catalog;
        insert_at(
            alloc,
            catalog.tables.as_slice(),
            self.tables.as_mut_slice(),
            table as usize,
            cells,
            steps,
        )
    }

    /// Sets values in the row with a key, which has a value for each key column. Each value is one that its column takes,
    /// and no column is one of the key. A refusal gives the first reason against it. After a refusal, and for want of
    /// memory, nothing is changed. It counts at most a step for each row of the table, and one.
    pub fn update<L: Ledger>(
        &mut self,
        alloc: Global,
        table: u32,
        key: &[Val],
        set: &[SetCell],
        steps: &mut Steps<L>,
    ) -> Result<Stored, NoMemory>
        requires range { table < length self.old.tables }
        requires set { IsTrue (list_all (may_stand (table_at self.old table)) set.now) }
        ensures answer { IfOk result (λ stored. reason_of stored ≡ first_reason (update_tests (table_at self.old table) key.now set.now (rows_at self.old table))) }
        ensures state { self.new ≡ after result self.old (with_rows self.old table (updated (table_at self.old table) key.now set.now (rows_at self.old table))) }
        ensures catalog { self.new.catalog ≡ self.old.catalog }
        ensures steps { steps.new ≤ steps.old + (length (rows_at self.old table) + 1) }
    {
        let catalog: &Catalog = &self.catalog;
        update_at(
            alloc,
            catalog.tables.as_slice(),
            self.tables.as_mut_slice(),
            table as usize,
            key,
            set,
            steps,
        )
    }

    /// Takes out the row with a key, which has a value for each key column. A refusal gives the reason against it. After a
    /// refusal, and for want of memory, nothing is changed. It counts at most a step for each row of the table, and one.
    pub fn delete<L: Ledger>(
        &mut self,
        alloc: Global,
        table: u32,
        key: &[Val],
        steps: &mut Steps<L>,
    ) -> Result<Stored, NoMemory>
        requires { table < length self.old.tables }
        ensures answer { IfOk result (λ stored. reason_of stored ≡ first_reason (delete_tests (table_at self.old table) key.now (rows_at self.old table))) }
        ensures state { self.new ≡ after result self.old (with_rows self.old table (deleted (table_at self.old table) key.now (rows_at self.old table))) }
        ensures catalog { self.new.catalog ≡ self.old.catalog }
        ensures steps { steps.new ≤ steps.old + (length (rows_at self.old table) + 1) }
    {
        let catalog: &Catalog = &self.catalog;
        delete_at(
            alloc,
            catalog.tables.as_slice(),
            self.tables.as_mut_slice(),
            table as usize,
            key,
            steps,
        )
    }
}
