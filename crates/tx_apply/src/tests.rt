ghost use Rattle.std.specs.Prelude.{◌≡◌, ◌<◌, ◌++◌, [], ◌∷◌, length, IsTrue, IfOk, OnOk};
ghost use Rattle.row_store.specs.Held.{is_numbered};

use crate::{ApplyFault, Reason, Tx, TxCells, TxChange, TxTextFault, apply, read_tx};
use data_model::{Catalog, Column, TableDef};
use row_store::Snapshot;
use scalar_val::{Kind, List, NoMemory, Steps, Str, Val, write_json};
use std::alloc::Global;
use std::marker::Brand;
use std::sync::ledger::{Blank, Ledger};
use std::test::Fail;

/// What a transaction's text is answered where it isn't applied.
#[derive(Clone, Copy, Debug, PartialEq, Eq)]
enum Refusal {
    Change(u64, Reason),
    NotTransaction,
    NoMemory,
}

impl From<NoMemory> for Refusal {
    fn from(_: NoMemory) -> Refusal {
        Refusal::NoMemory
    }
}

fn push<T: Drop>(list: &mut List<T>, item: T) -> Result<(), NoMemory>
    ensures { OnOk result (list.new ≡ list.old ++ item ∷ []) }
{
    match list.push(item) {
        Ok(()) => Ok(()),
        Err(_back) => Err(NoMemory),
    }
}

fn column(alloc: Global, name: &str, kind: Kind, nullable: bool) -> Result<Column, NoMemory> {
    Ok(Column {
        name: Str::of(alloc, name)?,
        kind,
        nullable,
    })
}

fn columns(alloc: Global) -> Result<List<Column>, NoMemory>
    ensures { IfOk result (λ columns. length columns ≡ 2) }
{
    let mut columns = List::new(alloc);
    push(&mut columns, column(alloc, "id", Kind::Int, false)?)?;
    push(&mut columns, column(alloc, "name", Kind::Text, true)?)?;
    Ok(columns)
}

/// Users have an id, which is the key, and a name or none.
fn users(alloc: Global, unique: List<u32>, max_rows: u32) -> Result<Catalog, NoMemory>
    ensures { IfOk result (λ catalog. IsTrue (is_numbered catalog)) }
{
    let columns = columns(alloc)?;
    let mut key = List::new(alloc);
    push(&mut key, 0)?;
    let mut tables = List::new(alloc);
    let name = Str::of(alloc, "user")?;
    push(
        &mut tables,
        TableDef {
            name,
            columns,
            key,
            unique,
            max_rows,
        },
    )?;
    Ok(Catalog { tables })
}

/// Names are unique, and there may be one user.
fn one_user(alloc: Global) -> Result<Catalog, NoMemory>
    ensures { IfOk result (λ catalog. IsTrue (is_numbered catalog)) }
{
    let mut unique = List::new(alloc);
    push(&mut unique, 1)?;
    users(alloc, unique, 1)
}

fn commit<L: Ledger>(
    alloc: Global,
    catalog: &Catalog,
    snapshot: &Snapshot,
    text: &str,
    steps: &mut Steps<L>,
) -> Result<Snapshot, Refusal>
    requires { snapshot.now.catalog ≡ catalog.now }
    ensures { IfOk result (λ after. after.catalog ≡ catalog.now) }
{
    let tx = match read_tx(alloc, text) {
        Ok(tx) => tx,
        Err(TxTextFault::NotTransaction) => return Err(Refusal::NotTransaction),
        Err(TxTextFault::NoMemory) => return Err(Refusal::NoMemory),
    };
    match apply(alloc, catalog, snapshot, &tx, steps) {
        Ok(after) => Ok(after),
        Err(ApplyFault::Refused(fault)) => Err(Refusal::Change(fault.change, fault.reason)),
        Err(ApplyFault::NoMemory) => Err(Refusal::NoMemory),
    }
}

const ANN: &str = "[{\"insert\":\"user\",\"row\":{\"id\":1,\"name\":\"Ann\"}}]";

fn apply_after_ann<L: Ledger>(
    alloc: Global,
    text: &str,
    steps: &mut Steps<L>,
) -> Result<Snapshot, Refusal> {
    let catalog = one_user(alloc)?;
    let empty = Snapshot::new(alloc, &catalog)?;
    let ann = commit(alloc, &catalog, &empty, ANN, steps)?;
    commit(alloc, &catalog, &ann, text, steps)
}

/// One change with each reason, where several hold with the first of them.
const REASONS: &[(&str, Option<Refusal>)] = &[
    (
        "[{\"insert\":\"user\",\"row\":{\"id\":2,\"name\":\"Ann\"}}]",
        Some(Refusal::Change(1, Reason::UniqueTaken)),
    ),
    (
        "[{\"insert\":\"user\",\"row\":{\"id\":2}}]",
        Some(Refusal::Change(1, Reason::TableFull)),
    ),
    (
        "[{\"update\":\"user\",\"key\":{\"id\":3},\"set\":{}}]",
        Some(Refusal::Change(1, Reason::NoRow)),
    ),
    (
        "[{\"delete\":\"user\",\"key\":{\"id\":3}}]",
        Some(Refusal::Change(1, Reason::NoRow)),
    ),
    (
        "[{\"insert\":\"x\",\"row\":{}}]",
        Some(Refusal::Change(1, Reason::NoTable)),
    ),
    (
        "[{\"insert\":\"user\",\"row\":{\"id\":2,\"age\":1}}]",
        Some(Refusal::Change(1, Reason::NoColumn)),
    ),
    (
        "[{\"insert\":\"user\",\"row\":{\"id\":\"a\"}}]",
        Some(Refusal::Change(1, Reason::WrongKind)),
    ),
    (
        "[{\"insert\":\"user\",\"row\":{\"name\":\"B\"}}]",
        Some(Refusal::Change(1, Reason::NullGiven)),
    ),
    (
        "[{\"insert\":\"user\",\"row\":{\"id\":1,\"name\":\"Ann\"}}]",
        Some(Refusal::Change(1, Reason::KeyTaken)),
    ),
    (
        "[{\"delete\":\"user\",\"key\":{}}]",
        Some(Refusal::Change(1, Reason::NoColumn)),
    ),
    (
        "[{\"delete\":\"user\",\"key\":{\"id\":1,\"name\":\"Ann\"}}]",
        Some(Refusal::Change(1, Reason::NoColumn)),
    ),
    (
        "[{\"update\":\"user\",\"key\":{\"id\":null},\"set\":{\"name\":1}}]",
        Some(Refusal::Change(1, Reason::WrongKind)),
    ),
    (
        "[{\"update\":\"user\",\"key\":{\"id\":null},\"set\":{\"name\":null}}]",
        Some(Refusal::Change(1, Reason::NullGiven)),
    ),
    (
        "[{\"update\":\"user\",\"key\":{\"id\":\"a\"},\"set\":{\"id\":1}}]",
        Some(Refusal::Change(1, Reason::NoColumn)),
    ),
];

const TAKEN: &[(&str, Option<Refusal>)] = &[
    ("[]", None),
    (
        "[{\"update\":\"user\",\"key\":{\"id\":1},\"set\":{}}]",
        None,
    ),
    (
        "[{\"update\":\"user\",\"key\":{\"id\":1},\"set\":{\"name\":null}}]",
        None,
    ),
    (
        "[{\"delete\":\"user\",\"key\":{\"id\":1}},{\"insert\":\"user\",\"row\":{\"id\":2,\"name\":\"Ann\"}}]",
        None,
    ),
];

const OTHER_FORMS: &[(&str, Option<Refusal>)] = &[
    ("", Some(Refusal::NotTransaction)),
    ("{}", Some(Refusal::NotTransaction)),
    ("[", Some(Refusal::NotTransaction)),
    ("[1]", Some(Refusal::NotTransaction)),
    ("[{}]", Some(Refusal::NotTransaction)),
    ("[{\"insert\":\"user\"}]", Some(Refusal::NotTransaction)),
    (
        "[{\"insert\":\"user\",\"row\":{},\"set\":{}}]",
        Some(Refusal::NotTransaction),
    ),
    (
        "[{\"insert\":\"user\",\"key\":{}}]",
        Some(Refusal::NotTransaction),
    ),
    ("[{\"insert\":1,\"row\":{}}]", Some(Refusal::NotTransaction)),
    (
        "[{\"insert\":\"user\",\"row\":[]}]",
        Some(Refusal::NotTransaction),
    ),
    (
        "[{\"insert\":\"user\",\"row\":{\"id\":-0}}]",
        Some(Refusal::NotTransaction),
    ),
    (
        "[{\"insert\":\"user\",\"row\":{\"id\":1.0}}]",
        Some(Refusal::NotTransaction),
    ),
    (
        "[{\"insert\":\"user\",\"row\":{\"id\":1e0}}]",
        Some(Refusal::NotTransaction),
    ),
    (
        "[{\"insert\":\"user\",\"row\":{\"id\":9223372036854775808}}]",
        Some(Refusal::NotTransaction),
    ),
    (
        "[{\"insert\":\"user\",\"row\":{\"id\":[1]}}]",
        Some(Refusal::NotTransaction),
    ),
    (
        "[{\"delete\":\"user\",\"key\":{\"id\":1}},{\"delete\":\"user\"}]",
        Some(Refusal::NotTransaction),
    ),
];

/// The place of the first case that has another answer where Ann is the one user.
fn other_answer<L: Ledger>(
    alloc: Global,
    cases: &[(&str, Option<Refusal>)],
    steps: &mut Steps<L>,
) -> Option<usize> {
    for at in 0..cases.len() {
        let (text, want) = cases[at];
        if apply_after_ann(alloc, text, steps).err() != want {
            return Some(at);
        }
    }
    None
}

/// The places of the first wrong cases of the three tables.
fn other_answers<L: Ledger>(alloc: Global, blank: Blank) -> [Option<usize>; 3]
    requires name { blank.name ≡ L.name }
    requires parts { blank.parts ≡ L.parts }
    requires some { 0 < blank.parts }
{
    let mut steps = Steps::<L>::new(blank);
    [
        other_answer(alloc, REASONS, &mut steps),
        other_answer(alloc, TAKEN, &mut steps),
        other_answer(alloc, OTHER_FORMS, &mut steps),
    ]
}

#[test]
fn each_text_has_its_answer_after_one_user(rt: HostRuntime) {
    let others = other_answers::<Brand>(rt.alloc(), Blank::new(1));
    assert_eq!(rt; others, [None, None, None]);
}

const THIRD_TAKEN: &str =
    "[{\"insert\":\"user\",\"row\":{\"id\":1}},{\"insert\":\"user\",\"row\":{\"id\":2}},{\"insert\":\"user\",\"row\":{\"id\":1}}]";

const ONE_AND_TWO: &str =
    "[{\"insert\":\"user\",\"row\":{\"id\":1}},{\"insert\":\"user\",\"row\":{\"id\":2}}]";

/// What a text that is refused at its third change is answered over an empty table, and what a text that the same table
/// took is answered over its own result.
fn over_the_same<L: Ledger>(
    alloc: Global,
    blank: Blank,
) -> Result<(Option<Refusal>, Option<Refusal>), Refusal>
    requires name { blank.name ≡ L.name }
    requires parts { blank.parts ≡ L.parts }
    requires some { 0 < blank.parts }
{
    let mut steps = Steps::<L>::new(blank);
    let catalog = users(alloc, List::new(alloc), 10)?;
    let empty = Snapshot::new(alloc, &catalog)?;
    let refused = commit(alloc, &catalog, &empty, THIRD_TAKEN, &mut steps).err();
    let two = commit(alloc, &catalog, &empty, ONE_AND_TWO, &mut steps)?;
    let again = commit(alloc, &catalog, &two, ONE_AND_TWO, &mut steps).err();
    Ok((refused, again))
}

#[test]
fn a_refused_transaction_leaves_the_snapshot_as_it_was(rt: HostRuntime) {
    let said = over_the_same::<Brand>(rt.alloc(), Blank::new(1));
    let third = Refusal::Change(3, Reason::KeyTaken);
    let first = Refusal::Change(1, Reason::KeyTaken);
    assert!(rt; said == Ok((Some(third), Some(first))));
}

fn only_row(tx: &Tx) -> Option<&TxCells> {
    match tx.get(0) {
        Some(TxChange::Insert { row, .. }) => Some(row),
        _ => None,
    }
}

/// The cells of a transaction's first insert, as a JSON object.
fn cells_text(alloc: Global, text: &str) -> Result<Vec<u8>, Refusal> {
    let mut out = Vec::new(alloc);
    let Ok(tx) = read_tx(alloc, text) else {
        return Err(Refusal::NotTransaction);
    };
    let Some(row) = only_row(&tx) else {
        return Ok(out);
    };
    for cell in row.as_slice() {
        append(&mut out, cell.column.as_str(), "=")?;
        write_json(&cell.value, &mut out)?;
        append(&mut out, "", " ")?;
    }
    Ok(out)
}

fn append(out: &mut Vec<u8>, text: &str, end: &str) -> Result<(), NoMemory> {
    out.extend_from_slice(text.as_bytes())?;
    out.extend_from_slice(end.as_bytes())?;
    Ok(())
}

#[test]
fn cells_ascend_and_the_last_pair_counts(rt: HostRuntime) {
    let text =
        "[{\"row\":{\"b\":1,\"a\":null,\"b\":-9223372036854775808,\"é\":true,\"ab\":\"x\"},\"insert\":\"t\"}]";
    let said = cells_text(rt.alloc(), text);
    let want = "a=null ab=\"x\" b=-9223372036854775808 é=true ";
    assert!(rt; said.is_ok_and(|out| out.as_slice() == want.as_bytes()));
}
