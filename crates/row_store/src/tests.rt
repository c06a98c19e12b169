ghost use Rattle.std.specs.Prelude.{◌≡◌, ◌<◌, [], ◌∷◌, IsTrue, IfOk};
ghost use Rattle.data_model.specs.Rows.{stands_in};
ghost use Rattle.row_store.specs.Example.{id_column, name_column, users};

use crate::{Row, Snapshot, Stored, copy_row};
use data_model::{Catalog, Column, SetCell, TableDef};
use scalar_val::{Kind, List, NoMemory, Steps, Str, Val, write_json};
use std::alloc::Global;
use std::marker::Brand;
use std::sync::ledger::{Blank, Ledger};
use std::test::Fail;

fn is_send_and_sync<T: Send + Sync + Drop>(_value: T) {}

#[test]
fn snapshots_may_be_shared_with_other_threads(rt: HostRuntime) -> Result<(), Fail> {
    let alloc = rt.alloc();
    let catalog = Catalog {
        tables: List::new(alloc),
    };
    is_send_and_sync(Snapshot::new(alloc, &catalog)?);
    Ok(())
}

pub(crate) fn one<T: Drop>(alloc: Global, item: T) -> Result<List<T>, NoMemory>
    ensures { IfOk result (λ list. list ≡ item ∷ []) }
{
    let mut list = List::new(alloc);
    match list.push(item) {
        Ok(()) => Ok(list),
        Err(_back) => Err(NoMemory),
    }
}

pub(crate) fn columns(alloc: Global) -> Result<List<Column>, NoMemory>
    ensures { IfOk result (λ list. list ≡ id_column ∷ name_column ∷ []) }
{
    let id = Column {
        name: Str::of(alloc, "id")?,
        kind: Kind::Int,
        nullable: false,
    };
    let name = Column {
        name: Str::of(alloc, "name")?,
        kind: Kind::Text,
        nullable: true,
    };
    let mut list = one(alloc, id)?;
    match list.push(name) {
        Ok(()) => Ok(list),
        Err(_back) => Err(NoMemory),
    }
}

/// Users have an id, which is the key, and a unique name or none; there may be two.
fn users(alloc: Global) -> Result<Catalog, NoMemory>
    ensures { IfOk result (λ catalog. catalog.tables ≡ users) }
{
    let table = TableDef {
        name: Str::of(alloc, "user")?,
        columns: columns(alloc)?,
        key: one(alloc, 0)?,
        unique: one(alloc, 1)?,
        max_rows: 2,
    };
    Ok(Catalog {
        tables: one(alloc, table)?,
    })
}

/// A name, and null for no letters.
pub(crate) fn name_value(alloc: Global, name: &str) -> Result<Val, NoMemory>
    ensures { IfOk result (λ value. IsTrue (stands_in name_column value)) }
{
    if name.is_empty() {
        return Ok(Val::Null);
    }
    Ok(Val::Text(Str::of(alloc, name)?))
}

#[tactic(auto, using(crate::proofs::Examples::one_table, crate::proofs::Examples::row_stands))]
fn insert<L: Ledger>(
    alloc: Global,
    snapshot: &mut Snapshot,
    id: i32,
    name: &str,
    steps: &mut Steps<L>,
) -> Result<Stored, NoMemory>
    requires { snapshot.old.catalog.tables ≡ users }
    ensures { snapshot.new.catalog ≡ snapshot.old.catalog }
{
    let name = name_value(alloc, name)?;
    let row = Vec::from_array(alloc, [Val::Int(id), name])?;
    snapshot.fits();
    snapshot.insert(alloc, 0, List::from_vec(row), steps)
}

#[tactic(auto, using(crate::proofs::Examples::one_table, crate::proofs::Examples::name_stands))]
fn rename<L: Ledger>(
    alloc: Global,
    snapshot: &mut Snapshot,
    id: i32,
    name: &str,
    steps: &mut Steps<L>,
) -> Result<Stored, NoMemory>
    requires { snapshot.old.catalog.tables ≡ users }
    ensures { snapshot.new.catalog ≡ snapshot.old.catalog }
{
    let value = name_value(alloc, name)?;
    snapshot.fits();
    snapshot.update(
        alloc,
        0,
        &[Val::Int(id)],
        &[SetCell { column: 1, value }],
        steps,
    )
}

#[tactic(auto, using(crate::proofs::Examples::one_table))]
fn delete<L: Ledger>(
    alloc: Global,
    snapshot: &mut Snapshot,
    id: i32,
    steps: &mut Steps<L>,
) -> Result<Stored, NoMemory>
    requires { snapshot.old.catalog.tables ≡ users }
    ensures { snapshot.new.catalog ≡ snapshot.old.catalog }
{
    snapshot.fits();
    snapshot.delete(alloc, 0, &[Val::Int(id)], steps)
}

pub(crate) fn append_row(row: &Row, out: &mut Vec<u8>) -> Result<(), NoMemory> {
    for value in row.cells() {
        write_json(value, out)?;
        out.push(b' ')?;
    }
    Ok(())
}

/// Copies of the rows, as JSON.
#[tactic(auto, using(crate::proofs::Examples::one_table))]
pub(crate) fn append_rows<L: Ledger>(
    alloc: Global,
    snapshot: &Snapshot,
    steps: &mut Steps<L>,
    out: &mut Vec<u8>,
) -> Result<(), NoMemory>
    requires { snapshot.now.catalog.tables ≡ users }
{
    snapshot.fits();
    let mut scan = snapshot.scan(0);
    for _turn in 0..3 {
        if let Some(row) = scan.next(steps) {
            append_row(&copy_row(alloc, row, steps)?, out)?;
        }
    }
    out.push(b'|')?;
    Ok(())
}

#[tactic(auto, using(crate::proofs::Examples::users_numbered))]
fn answers<L: Ledger>(alloc: Global, steps: &mut Steps<L>) -> Result<[Stored; 10], NoMemory> {
    let catalog = users(alloc)?;
    let mut snapshot = Snapshot::new(alloc, &catalog)?;
    Ok([
        insert(alloc, &mut snapshot, 2, "Bo", steps)?,
        insert(alloc, &mut snapshot, 2, "Bo", steps)?,
        insert(alloc, &mut snapshot, 1, "", steps)?,
        insert(alloc, &mut snapshot, 3, "Bo", steps)?,
        insert(alloc, &mut snapshot, 3, "", steps)?,
        rename(alloc, &mut snapshot, 3, "Bo", steps)?,
        rename(alloc, &mut snapshot, 1, "Bo", steps)?,
        delete(alloc, &mut snapshot, 3, steps)?,
        delete(alloc, &mut snapshot, 2, steps)?,
        insert(alloc, &mut snapshot, 3, "", steps)?,
    ])
}

/// A share's rows before and after the other one changes, and the other's.
#[tactic(auto, using(crate::proofs::Examples::users_numbered))]
fn rows_of_shares<L: Ledger>(alloc: Global, steps: &mut Steps<L>) -> Result<Vec<u8>, NoMemory> {
    let mut out = Vec::new(alloc);
    let catalog = users(alloc)?;
    let mut snapshot = Snapshot::new(alloc, &catalog)?;
    let _two = insert(alloc, &mut snapshot, 2, "Bo", steps)?;
    let _one = insert(alloc, &mut snapshot, 1, "", steps)?;
    let share = snapshot.share(alloc)?;
    let _named = rename(alloc, &mut snapshot, 1, "Al", steps)?;
    let _gone = delete(alloc, &mut snapshot, 2, steps)?;
    append_rows(alloc, &share, steps, &mut out)?;
    append_rows(alloc, &snapshot, steps, &mut out)?;
    Ok(out)
}

fn all<L: Ledger>(alloc: Global, blank: Blank) -> Result<([Stored; 10], Vec<u8>), NoMemory>
    requires name { blank.name ≡ L.name }
    requires parts { blank.parts ≡ L.parts }
    requires some { 0 < blank.parts }
{
    let mut steps = Steps::<L>::new(blank);
    let answers = answers(alloc, &mut steps)?;
    let rows = rows_of_shares(alloc, &mut steps)?;
    Ok((answers, rows))
}

#[test]
fn each_refusal_and_rows_in_key_order_that_a_share_keeps(rt: HostRuntime) -> Result<(), Fail> {
    let (answers, rows) = all::<Brand>(rt.alloc(), Blank::new(1))?;
    let want = [
        Stored::Done,
        Stored::KeyTaken,
        Stored::Done,
        Stored::UniqueTaken,
        Stored::TableFull,
        Stored::NoRow,
        Stored::UniqueTaken,
        Stored::NoRow,
        Stored::Done,
        Stored::Done,
    ];
    assert_eq!(rt; answers, want);
    assert_eq!(rt; rows.as_slice(), b"1 null 2 \"Bo\" |1 \"Al\" |".as_slice());
    Ok(())
}
