//! A table of users and transactions that fill and change it.
ghost use Rattle.std.specs.Prelude.{◌≡◌, ◌++◌, [], ◌∷◌, length, IsTrue, IfOk, OnOk};
ghost use Rattle.row_store.specs.Held.{is_numbered};

use data_model::{Catalog, Column, ColumnList, TableDef};
use row_store::Snapshot;
use scalar_val::{Kind, List, NoMemory, Steps, Str};
use std::alloc::{AllocError, Global};
use std::sync::ledger::Ledger;
use tx_apply::{ApplyFault, TxTextFault, apply, read_tx};

/// Why a transaction wasn't applied.
#[derive(Clone, Copy, Debug)]
pub enum Fault {
    /// Its text is none, or a change is refused.
    Refused,
    /// Memory was refused.
    NoMemory,
}

impl From<NoMemory> for Fault {
    fn from(_: NoMemory) -> Fault {
        Fault::NoMemory
    }
}

impl From<AllocError> for Fault {
    fn from(_: AllocError) -> Fault {
        Fault::NoMemory
    }
}

fn push<T: Drop>(list: &mut List<T>, item: T) -> Result<(), NoMemory>
    ensures { OnOk result (list.new ≡ list.old ++ item ∷ []) }
{
    match list.push(item) {
        Ok(()) => Ok(()),
        Err(_back) => Err(NoMemory),
    }
}

fn column(alloc: Global, name: &str, kind: Kind, nullable: bool) -> Result<Column, NoMemory> {
    Ok(Column {
        name: Str::of(alloc, name)?,
        kind,
        nullable,
    })
}

/// The column of the users' names.
pub fn name_column(alloc: Global) -> Result<ColumnList, NoMemory> {
    let mut list = List::new(alloc);
    push(&mut list, 1)?;
    Ok(list)
}

fn columns(alloc: Global) -> Result<List<Column>, NoMemory>
    ensures { IfOk result (λ columns. length columns ≡ 2) }
{
    let mut columns = List::new(alloc);
    push(&mut columns, column(alloc, "id", Kind::Int, false)?)?;
    push(&mut columns, column(alloc, "name", Kind::Text, true)?)?;
    Ok(columns)
}

/// Users have an id, which is the key, and a name or none.
pub fn users(alloc: Global, unique: ColumnList) -> Result<Catalog, NoMemory>
    ensures { IfOk result (λ catalog. IsTrue (is_numbered catalog)) }
{
    let columns = columns(alloc)?;
    let mut key = List::new(alloc);
    push(&mut key, 0)?;
    let table = TableDef {
        name: Str::of(alloc, "user")?,
        columns,
        key,
        unique,
        max_rows: 1_048_576,
    };
    let mut tables = List::new(alloc);
    push(&mut tables, table)?;
    Ok(Catalog { tables })
}

/// A transaction that inserts users with so many ids from one on.
pub fn inserts_text(alloc: Global, from: u32, count: u32) -> Result<String, Fault> {
    let mut text = String::from_str(alloc, "[")?;
    for number in from..from.saturating_add(count) {
        if number > from {
            text.push(',')?;
        }
        let change = format!(in alloc;
            "{{\"insert\":\"user\",\"row\":{{\"id\":{number},\"name\":\"user {number}\"}}}}"
        )?;
        text.push_str(change.as_str())?;
    }
    text.push(']')?;
    Ok(text)
}

/// A transaction that gives each user a name that no other user has, from the last to the first.
pub fn renames_text(alloc: Global, count: u32) -> Result<String, Fault> {
    let mut text = String::from_str(alloc, "[")?;
    for number in 0..count {
        if number > 0 {
            text.push(',')?;
        }
        let change = format!(in alloc;
            "{{\"update\":\"user\",\"key\":{{\"id\":{}}},\"set\":{{\"name\":\"name {number}\"}}}}",
            count - 1 - number
        )?;
        text.push_str(change.as_str())?;
    }
    text.push(']')?;
    Ok(text)
}

/// A transaction that gives each user another name, from the last to the first.
pub fn updates_text(alloc: Global, count: u32) -> Result<String, Fault> {
    let mut text = String::from_str(alloc, "[")?;
    for number in 0..count {
        if number > 0 {
            text.push(',')?;
        }
        let change = format!(in alloc;
            "{{\"update\":\"user\",\"key\":{{\"id\":{}}},\"set\":{{\"name\":\"x\"}}}}",
            count - 1 - number
        )?;
        text.push_str(change.as_str())?;
    }
    text.push(']')?;
    Ok(text)
}

/// Reads a transaction and applies it.
pub fn commit<L: Ledger>(
    alloc: Global,
    catalog: &Catalog,
    snapshot: &Snapshot,
    text: &str,
    steps: &mut Steps<L>,
) -> Result<Snapshot, Fault>
    requires { snapshot.now.catalog ≡ catalog.now }
    ensures { IfOk result (λ after. after.catalog ≡ catalog.now) }
{
    let tx = match read_tx(alloc, text) {
        Ok(tx) => tx,
        Err(TxTextFault::NotTransaction) => return Err(Fault::Refused),
        Err(TxTextFault::NoMemory) => return Err(Fault::NoMemory),
    };
    match apply(alloc, catalog, snapshot, &tx, steps) {
        Ok(after) => Ok(after),
        Err(ApplyFault::Refused(_)) => Err(Fault::Refused),
        Err(ApplyFault::NoMemory) => Err(Fault::NoMemory),
    }
}

/// Transactions of one insert each, one after another, of users with so many ids from one on.
pub fn commits<L: Ledger>(
    alloc: Global,
    catalog: &Catalog,
    snapshot: Snapshot,
    from: u32,
    count: u32,
    steps: &mut Steps<L>,
) -> Result<(), Fault>
    requires { snapshot.catalog ≡ catalog.now }
{
    let mut last = snapshot;
    for number in from..from.saturating_add(count) {
        let text = inserts_text(alloc, number, 1)?;
        last = commit(alloc, catalog, &last, text.as_str(), steps)?;
    }
    Ok(())
}
