//! One run of changes by the index of unique columns and by the scan.
ghost use Rattle.std.specs.Prelude.{◌≡◌, ◌<◌, ◌++◌, [], ◌∷◌, IsTrue, IfOk};
ghost use Rattle.data_model.specs.Rows.{stands_in};
ghost use Rattle.row_store.specs.Example.{id_column, name_column, badge_column, members};

use crate::tests::{append_row, columns, name_value, one};
use crate::{Snapshot, Stored};
use data_model::{Catalog, Column, SetCell, TableDef};
use scalar_val::{Kind, List, NoMemory, Steps, Str, Val};
use std::alloc::Global;
use std::marker::Brand;
use std::sync::ledger::{Blank, Ledger};
use std::test::Fail;

fn two<T: Drop>(alloc: Global, first: T, second: T) -> Result<List<T>, NoMemory>
    ensures { IfOk result (λ list. list ≡ first ∷ second ∷ []) }
{
    let mut list = one(alloc, first)?;
    match list.push(second) {
        Ok(()) => Ok(list),
        Err(_back) => Err(NoMemory),
    }
}

fn member_columns(alloc: Global) -> Result<List<Column>, NoMemory>
    ensures { IfOk result (λ list. list ≡ id_column ∷ name_column ∷ badge_column ∷ []) }
{
    let badge = Column {
        name: Str::of(alloc, "badge")?,
        kind: Kind::Int,
        nullable: true,
    };
    let mut list = columns(alloc)?;
    match list.push(badge) {
        Ok(()) => Ok(list),
        Err(_back) => Err(NoMemory),
    }
}

/// Members have an id, which is the key, and a name and a badge, each unique or none; there may be three.
fn members(alloc: Global) -> Result<Catalog, NoMemory>
    ensures { IfOk result (λ catalog. catalog.tables ≡ members) }
{
    let table = TableDef {
        name: Str::of(alloc, "member")?,
        columns: member_columns(alloc)?,
        key: one(alloc, 0)?,
        unique: two(alloc, 1, 2)?,
        max_rows: 3,
    };
    Ok(Catalog {
        tables: one(alloc, table)?,
    })
}

/// What a turn does, and to which member: parts of a number that is spread over the turns.
#[derive(Clone, Copy)]
struct Turn {
    change: u32,
    id: i32,
    name: u32,
    badge: i32,
}

fn turn_of(number: u32) -> Turn {
    let spread = number.wrapping_mul(22_695_477) >> 8;
    Turn {
        change: spread % 5,
        id: (spread / 5 % 5) as i32,
        name: spread / 25 % 4,
        badge: (spread / 100 % 4) as i32,
    }
}

fn name_of(alloc: Global, turn: Turn) -> Result<Val, NoMemory>
    ensures { IfOk result (λ value. IsTrue (stands_in name_column value)) }
{
    let names = ["", "Al", "Bo", "Cy"];
    let name = match names.get(turn.name as usize) {
        Some(name) => *name,
        None => "",
    };
    name_value(alloc, name)
}

/// A badge, and null for none.
fn badge_of(turn: Turn) -> Val
    ensures { IsTrue (stands_in badge_column result) }
{
    if turn.badge == 0 {
        return Val::Null;
    }
    Val::Int(turn.badge)
}

#[tactic(auto, using(crate::proofs::Examples::one_table_of_members, crate::proofs::Examples::member_stands))]
fn insert<L: Ledger>(
    alloc: Global,
    snapshot: &mut Snapshot,
    turn: Turn,
    steps: &mut Steps<L>,
) -> Result<Stored, NoMemory>
    requires { snapshot.old.catalog.tables ≡ members }
    ensures { snapshot.new.catalog ≡ snapshot.old.catalog }
{
    let name = name_of(alloc, turn)?;
    let row = Vec::from_array(alloc, [Val::Int(turn.id), name, badge_of(turn)])?;
    snapshot.fits();
    snapshot.insert(alloc, 0, List::from_vec(row), steps)
}

#[tactic(auto, using(crate::proofs::Examples::one_table_of_members, crate::proofs::Examples::member_name_stands))]
fn set_name<L: Ledger>(
    alloc: Global,
    snapshot: &mut Snapshot,
    turn: Turn,
    steps: &mut Steps<L>,
) -> Result<Stored, NoMemory>
    requires { snapshot.old.catalog.tables ≡ members }
    ensures { snapshot.new.catalog ≡ snapshot.old.catalog }
{
    let value = name_of(alloc, turn)?;
    snapshot.fits();
    snapshot.update(
        alloc,
        0,
        &[Val::Int(turn.id)],
        &[SetCell { column: 1, value }],
        steps,
    )
}

#[tactic(auto, using(crate::proofs::Examples::one_table_of_members, crate::proofs::Examples::member_badge_stands))]
fn set_badge<L: Ledger>(
    alloc: Global,
    snapshot: &mut Snapshot,
    turn: Turn,
    steps: &mut Steps<L>,
) -> Result<Stored, NoMemory>
    requires { snapshot.old.catalog.tables ≡ members }
    ensures { snapshot.new.catalog ≡ snapshot.old.catalog }
{
    let value = badge_of(turn);
    snapshot.fits();
    snapshot.update(
        alloc,
        0,
        &[Val::Int(turn.id)],
        &[SetCell { column: 2, value }],
        steps,
    )
}

#[tactic(auto, using(crate::proofs::Examples::one_table_of_members))]
fn delete<L: Ledger>(
    alloc: Global,
    snapshot: &mut Snapshot,
    turn: Turn,
    steps: &mut Steps<L>,
) -> Result<Stored, NoMemory>
    requires { snapshot.old.catalog.tables ≡ members }
    ensures { snapshot.new.catalog ≡ snapshot.old.catalog }
{
    snapshot.fits();
    snapshot.delete(alloc, 0, &[Val::Int(turn.id)], steps)
}

fn change<L: Ledger>(
    alloc: Global,
    snapshot: &mut Snapshot,
    turn: Turn,
    steps: &mut Steps<L>,
) -> Result<Stored, NoMemory>
    requires { snapshot.old.catalog.tables ≡ members }
    ensures { snapshot.new.catalog ≡ snapshot.old.catalog }
{
    match turn.change {
        0 | 1 => insert(alloc, snapshot, turn, steps),
        2 => set_name(alloc, snapshot, turn, steps),
        3 => set_badge(alloc, snapshot, turn, steps),
        _ => delete(alloc, snapshot, turn, steps),
    }
}

/// A change of a table that is shared, and so has no index.
fn change_of_share<L: Ledger>(
    alloc: Global,
    snapshot: &mut Snapshot,
    turn: Turn,
    steps: &mut Steps<L>,
) -> Result<Stored, NoMemory>
    requires { snapshot.old.catalog.tables ≡ members }
    ensures { snapshot.new.catalog ≡ snapshot.old.catalog }
{
    let share = snapshot.share(alloc)?;
    let stored = change(alloc, snapshot, turn, steps)?;
    drop(share);
    Ok(stored)
}

fn take_turn<L: Ledger>(
    alloc: Global,
    snapshot: &mut Snapshot,
    turn: Turn,
    share: bool,
    steps: &mut Steps<L>,
) -> Result<Stored, NoMemory>
    requires { snapshot.old.catalog.tables ≡ members }
    ensures { snapshot.new.catalog ≡ snapshot.old.catalog }
{
    if share {
        return change_of_share(alloc, snapshot, turn, steps);
    }
    change(alloc, snapshot, turn, steps)
}

fn letter(stored: Stored) -> u8 {
    match stored {
        Stored::Done => b'D',
        Stored::NoRow => b'N',
        Stored::KeyTaken => b'K',
        Stored::UniqueTaken => b'U',
        Stored::TableFull => b'F',
    }
}

/// A letter for each answer and the rows at the end. Where each table is shared before each change the answers are the
/// scan's; else every fortieth change alone finds its table shared, and the index is made between.
#[tactic(auto, using(crate::proofs::Examples::members_numbered))]
fn run<L: Ledger>(alloc: Global, shared: bool, steps: &mut Steps<L>) -> Result<Vec<u8>, NoMemory> {
    let mut out = Vec::new(alloc);
    let catalog = members(alloc)?;
    let mut snapshot = Snapshot::new(alloc, &catalog)?;
    for number in 0..100u32 {
        let share = shared || number % 40 == 39;
        let stored = take_turn(alloc, &mut snapshot, turn_of(number), share, steps)?;
        out.push(letter(stored))?;
    }
    append_members(alloc, &snapshot, steps, &mut out)?;
    Ok(out)
}

#[tactic(auto, using(crate::proofs::Examples::one_table_of_members))]
fn append_members<L: Ledger>(
    alloc: Global,
    snapshot: &Snapshot,
    steps: &mut Steps<L>,
    out: &mut Vec<u8>,
) -> Result<(), NoMemory>
    requires { snapshot.now.catalog.tables ≡ members }
{
    snapshot.fits();
    let mut scan = snapshot.scan(0);
    for _turn in 0..4 {
        if let Some(row) = scan.next(steps) {
            append_row(row, out)?;
        }
    }
    Ok(())
}

fn runs<L: Ledger>(alloc: Global, blank: Blank) -> Result<(Vec<u8>, Vec<u8>), NoMemory>
    requires name { blank.name ≡ L.name }
    requires parts { blank.parts ≡ L.parts }
    requires some { 0 < blank.parts }
{
    let mut steps = Steps::<L>::new(blank);
    let by_scan = run(alloc, true, &mut steps)?;
    let by_index = run(alloc, false, &mut steps)?;
    Ok((by_scan, by_index))
}

#[test]
fn the_index_answers_as_the_scan_does(rt: HostRuntime) -> Result<(), Fail> {
    let (by_scan, by_index) = runs::<Brand>(rt.alloc(), Blank::new(1))?;
    let want =
        b"DDNNDDDDNNDKUNNNUKDDNNDKDUNNDDKUNNDDKUNNUDKUFNDDKFFNDDDFUNDUUDUFNUDKUUNDDUFUNUDDUUNDDDDUUNDDDUUNDUDU0 null null 1 \"Al\" 3 2 null 2 ";
    assert_eq!(rt; by_scan.as_slice(), want.as_slice());
    assert_eq!(rt; by_index.as_slice(), want.as_slice());
    Ok(())
}
