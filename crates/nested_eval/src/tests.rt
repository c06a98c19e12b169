ghost use Rattle.std.specs.Prelude.{◌≡◌, ◌<◌, [], ◌∷◌, IsTrue, IfOk, codes};
ghost use Rattle.std.specs.List.{AllByRecursion};
ghost use Rattle.data_model.specs.Rows.{stands_in};
ghost use Rattle.nested_eval.specs.Example.{id_column, whole_column, items, related, number, FieldFits, RootFits};

use crate::eval;
use data_model::{Catalog, Column, TableDef};
use json_out::Outcome;
use plan_core::{
    Binding, Field, FieldList, Filter, FilterList, Op, Operand, Order, OrderList, Plan, Select,
    Shape, SlotList, ValList,
};
use row_store::{Snapshot, Stored};
use scalar_val::{Kind, List, NoMemory, Steps, Str, Val};
use sqlite_items::Boxed;
use std::alloc::Global;
use std::marker::Brand;
use std::sync::ledger::{Blank, Ledger};
use std::test::Fail;

fn one<T: Drop>(alloc: Global, item: T) -> Result<List<T>, NoMemory>
    ensures { IfOk result (λ list. list ≡ item ∷ []) }
{
    let mut list = List::new(alloc);
    match list.push(item) {
        Ok(()) => Ok(list),
        Err(_back) => Err(NoMemory),
    }
}

fn columns(alloc: Global) -> Result<List<Column>, NoMemory>
    ensures { IfOk result (λ list. list ≡ id_column ∷ whole_column ∷ []) }
{
    let id = Column {
        name: Str::of(alloc, "id")?,
        kind: Kind::Int,
        nullable: false,
    };
    let whole = Column {
        name: Str::of(alloc, "whole")?,
        kind: Kind::Int,
        nullable: true,
    };
    Ok(List::from_vec(Vec::from_array(alloc, [id, whole])?))
}

/// Items have an id, which is the key, and the id of the item that they are a part of, or none.
fn items(alloc: Global) -> Result<Catalog, NoMemory>
    ensures { IfOk result (λ catalog. catalog.tables ≡ items) }
{
    let table = TableDef {
        name: Str::of(alloc, "item")?,
        columns: columns(alloc)?,
        key: one(alloc, 0)?,
        unique: List::new(alloc),
        max_rows: 8,
    };
    Ok(Catalog {
        tables: one(alloc, table)?,
    })
}

/// The item's id, and null for 0.
fn whole_value(whole: i32) -> Val
    ensures { IsTrue (stands_in whole_column result) }
{
    if whole == 0 {
        return Val::Null;
    }
    Val::Int(whole)
}

#[tactic(auto, using(crate::proofs::Examples::one_table, crate::proofs::Examples::row_stands))]
fn insert<L: Ledger>(
    alloc: Global,
    snapshot: &mut Snapshot,
    id: i32,
    whole: i32,
    steps: &mut Steps<L>,
) -> Result<Stored, NoMemory>
    requires { snapshot.old.catalog.tables ≡ items }
    ensures { snapshot.new.catalog ≡ snapshot.old.catalog }
{
    let row = Vec::from_array(alloc, [Val::Int(id), whole_value(whole)])?;
    snapshot.fits();
    snapshot.insert(alloc, 0, List::from_vec(row), steps)
}

/// Five items: 1 has the parts 3 and 4, and 3 the part 2; 5 stands alone.
#[tactic(auto, using(crate::proofs::Examples::items_numbered))]
fn five_items<L: Ledger>(alloc: Global, steps: &mut Steps<L>) -> Result<Snapshot, NoMemory>
    ensures { IfOk result (λ snapshot. snapshot.catalog.tables ≡ items) }
{
    let catalog = items(alloc)?;
    let mut snapshot = Snapshot::new(alloc, &catalog)?;
    insert(alloc, &mut snapshot, 1, 0, steps)?;
    insert(alloc, &mut snapshot, 2, 3, steps)?;
    insert(alloc, &mut snapshot, 3, 1, steps)?;
    insert(alloc, &mut snapshot, 4, 1, steps)?;
    insert(alloc, &mut snapshot, 5, 0, steps)?;
    Ok(snapshot)
}

#[tactic(auto, using(crate::proofs::Examples::id_fits))]
fn id_field(alloc: Global) -> Result<Field, NoMemory>
    ensures { IfOk result (λ field. FieldFits field) }
{
    Ok(Field::Column {
        key: Str::of(alloc, "id")?,
        column: 0,
    })
}

#[tactic(auto, using(crate::proofs::Examples::typename_fits))]
fn typename_field(alloc: Global) -> Result<Field, NoMemory>
    ensures { IfOk result (λ field. FieldFits field) }
{
    Ok(Field::Typename {
        key: Str::of(alloc, "type")?,
    })
}

fn id_fields(alloc: Global) -> Result<FieldList, NoMemory>
    ensures { IfOk result (λ fields. AllByRecursion FieldFits fields) }
{
    one(alloc, id_field(alloc)?)
}

fn related(alloc: Global, shape: Shape, fields: FieldList) -> Select
    ensures { result ≡ related shape fields }
{
    Select {
        table: 0,
        shape,
        filter: Filter::And(FilterList::new(alloc)),
        order: OrderList::new(alloc),
        limit: None,
        offset: None,
        cap: None,
        fields,
    }
}

fn parts_field(alloc: Global) -> Result<Field, NoMemory>
    ensures { IfOk result (λ field. FieldFits field) }
{
    let select = related(alloc, Shape::List, id_fields(alloc)?);
    Ok(Field::Link {
        key: Str::of(alloc, "parts")?,
        from: one(alloc, 0)?,
        to: one(alloc, 1)?,
        select: Boxed::new(alloc, select)?,
    })
}

fn whole_field(alloc: Global) -> Result<Field, NoMemory>
    ensures { IfOk result (λ field. FieldFits field) }
{
    let select = related(alloc, Shape::One, id_fields(alloc)?);
    Ok(Field::Link {
        key: Str::of(alloc, "whole")?,
        from: one(alloc, 1)?,
        to: one(alloc, 0)?,
        select: Boxed::new(alloc, select)?,
    })
}

fn all_fields(alloc: Global) -> Result<FieldList, NoMemory>
    ensures { IfOk result (λ fields. AllByRecursion FieldFits fields) }
{
    let id = id_field(alloc)?;
    let typename = typename_field(alloc)?;
    let parts = parts_field(alloc)?;
    let whole = whole_field(alloc)?;
    Ok(List::from_vec(Vec::from_array(alloc, [id, typename, parts, whole])?))
}

/// What a list of items is asked for: the order by the whole, and the numbers of its cut.
#[derive(Clone, Copy)]
struct Listing {
    descending: bool,
    nulls_first: bool,
    limit: u8,
    offset: u8,
    cap: Option<u32>,
}

fn number(value: u8) -> Operand
    ensures { result ≡ number value }
{
    Operand::Const(Val::Int(i32::from(value)))
}

/// The items other than one.
fn listed(
    alloc: Global,
    fields: FieldList,
    without: Val,
    listing: Listing,
) -> Result<Select, NoMemory>
    requires { AllByRecursion FieldFits fields }
    ensures { IfOk result (λ select. RootFits select) }
{
    let order = Order {
        column: 1,
        descending: listing.descending,
        nulls_first: listing.nulls_first,
    };
    Ok(Select {
        table: 0,
        shape: Shape::List,
        filter: Filter::Cmp {
            column: 0,
            op: Op::Neq,
            operand: Operand::Const(without),
        },
        order: one(alloc, order)?,
        limit: Some(number(listing.limit)),
        offset: Some(number(listing.offset)),
        cap: listing.cap,
        fields,
    })
}

/// The next items by their ids.
fn streamed(
    alloc: Global,
    descending: bool,
    batch: u8,
    cap: Option<u32>,
) -> Result<Select, NoMemory>
    requires { 0 < batch }
    ensures { IfOk result (λ select. RootFits select) }
{
    let fields = id_fields(alloc)?;
    Ok(Select {
        table: 0,
        shape: Shape::Stream {
            column: 0,
            descending,
            batch: number(batch),
        },
        filter: Filter::And(FilterList::new(alloc)),
        order: OrderList::new(alloc),
        limit: None,
        offset: None,
        cap,
        fields,
    })
}

fn evaluate(
    alloc: Global,
    plan: &Plan,
    binding: &Binding,
    snapshot: &Snapshot,
) -> Result<Outcome, NoMemory>
    requires names { plan.now.names ≡ codes "item" ∷ [] }
    requires root { RootFits plan.now.root }
    requires tables { snapshot.now.catalog.tables ≡ items }
{
    eval(alloc, plan, binding, snapshot)
}

fn run<L: Ledger>(
    alloc: Global,
    root: Select,
    cursor: Val,
    steps: &mut Steps<L>,
) -> Result<Outcome, NoMemory>
    requires { RootFits root }
{
    let snapshot = five_items(alloc, steps)?;
    let plan = Plan {
        key: Str::of(alloc, "a")?,
        names: one(alloc, Str::of(alloc, "item")?)?,
        root,
    };
    let binding = Binding {
        vars: SlotList::new(alloc),
        session: ValList::new(alloc),
        cursor,
    };
    evaluate(alloc, &plan, &binding, &snapshot)
}

fn related_items<L: Ledger>(alloc: Global, blank: Blank) -> Result<Outcome, NoMemory>
    requires name { blank.name ≡ L.name }
    requires parts { blank.parts ≡ L.parts }
    requires some { 0 < blank.parts }
{
    let mut steps = Steps::<L>::new(blank);
    let listing = Listing {
        descending: false,
        nulls_first: false,
        limit: 2,
        offset: 1,
        cap: None,
    };
    let root = listed(alloc, all_fields(alloc)?, Val::Int(5), listing)?;
    run(alloc, root, Val::Null, &mut steps)
}

#[test]
fn relationships_to_many_and_to_one(rt: HostRuntime) -> Result<(), Fail> {
    let alloc = rt.alloc();
    let outcome = related_items::<Brand>(alloc, Blank::new(1))?;
    let want =
        "{\"data\":{\"a\":[{\"id\":4,\"type\":\"item\",\"parts\":[],\"whole\":{\"id\":1}},{\"id\":2,\"type\":\"item\",\"parts\":[],\"whole\":{\"id\":3}}]}}";
    assert_eq!(rt; outcome.text.as_slice(), want.as_bytes());
    assert!(rt; outcome.rows == 2);
    assert!(rt; matches!(outcome.last, Val::Null));
    Ok(())
}

fn by_whole(
    descending: bool,
    nulls_first: bool,
    limit: u8,
    offset: u8,
    cap: Option<u32>,
) -> Listing {
    Listing {
        descending,
        nulls_first,
        limit,
        offset,
        cap,
    }
}

fn list_is<L: Ledger>(
    alloc: Global,
    listing: Listing,
    want: &str,
    steps: &mut Steps<L>,
) -> Result<bool, NoMemory> {
    let root = listed(alloc, id_fields(alloc)?, Val::Int(9), listing)?;
    let outcome = run(alloc, root, Val::Null, steps)?;
    Ok(outcome.text.as_slice() == want.as_bytes())
}

/// The items' wholes are null, 3, 1, 1 and null.
fn lists_are<L: Ledger>(alloc: Global, blank: Blank) -> Result<bool, NoMemory>
    requires name { blank.name ≡ L.name }
    requires parts { blank.parts ≡ L.parts }
    requires some { 0 < blank.parts }
{
    let mut steps = Steps::<L>::new(blank);
    for (listing, want) in [
        (
            by_whole(false, false, 9, 0, None),
            "{\"data\":{\"a\":[{\"id\":3},{\"id\":4},{\"id\":2},{\"id\":1},{\"id\":5}]}}",
        ),
        (
            by_whole(false, true, 9, 0, None),
            "{\"data\":{\"a\":[{\"id\":1},{\"id\":5},{\"id\":3},{\"id\":4},{\"id\":2}]}}",
        ),
        (
            by_whole(true, true, 9, 0, None),
            "{\"data\":{\"a\":[{\"id\":1},{\"id\":5},{\"id\":2},{\"id\":3},{\"id\":4}]}}",
        ),
        (
            by_whole(true, false, 9, 0, None),
            "{\"data\":{\"a\":[{\"id\":2},{\"id\":3},{\"id\":4},{\"id\":1},{\"id\":5}]}}",
        ),
        (
            by_whole(false, false, 3, 1, Some(2)),
            "{\"data\":{\"a\":[{\"id\":4},{\"id\":2}]}}",
        ),
        (
            by_whole(false, false, 2, 4, Some(2)),
            "{\"data\":{\"a\":[{\"id\":5}]}}",
        ),
        (by_whole(false, false, 3, 5, None), "{\"data\":{\"a\":[]}}"),
        (by_whole(false, false, 0, 0, None), "{\"data\":{\"a\":[]}}"),
    ] {
        if !list_is(alloc, listing, want, &mut steps)? {
            return Ok(false);
        }
    }
    Ok(true)
}

#[test]
fn orders_with_nulls_and_cuts(rt: HostRuntime) -> Result<(), Fail> {
    assert!(rt; lists_are::<Brand>(rt.alloc(), Blank::new(1))?);
    Ok(())
}

fn cursor_value(id: i32) -> Val {
    if id == 0 {
        return Val::Null;
    }
    Val::Int(id)
}

fn last_is(last: &Val, id: i32) -> bool {
    match last {
        Val::Int(value) => *value == id,
        Val::Null => id == 0,
        _ => false,
    }
}

/// Two items at most; 0 stands for null.
fn next_is<L: Ledger>(
    alloc: Global,
    descending: bool,
    cap: Option<u32>,
    cursor: i32,
    want: (&str, u64, i32),
    steps: &mut Steps<L>,
) -> Result<bool, NoMemory> {
    let (text, rows, last) = want;
    let root = streamed(alloc, descending, 2, cap)?;
    let outcome = run(alloc, root, cursor_value(cursor), steps)?;
    let same_text = outcome.text.as_slice() == text.as_bytes();
    Ok(same_text && outcome.rows == rows && last_is(&outcome.last, last))
}

fn streams_are<L: Ledger>(alloc: Global, blank: Blank) -> Result<bool, NoMemory>
    requires name { blank.name ≡ L.name }
    requires parts { blank.parts ≡ L.parts }
    requires some { 0 < blank.parts }
{
    let mut steps = Steps::<L>::new(blank);
    for (descending, cap, cursor, want) in [
        (
            false,
            None,
            2,
            ("{\"data\":{\"a\":[{\"id\":3},{\"id\":4}]}}", 2, 4),
        ),
        (
            true,
            None,
            3,
            ("{\"data\":{\"a\":[{\"id\":2},{\"id\":1}]}}", 2, 1),
        ),
        (false, None, 4, ("{\"data\":{\"a\":[{\"id\":5}]}}", 1, 5)),
        (
            false,
            Some(1),
            -7,
            ("{\"data\":{\"a\":[{\"id\":1}]}}", 1, 1),
        ),
        (false, None, 5, ("{\"data\":{\"a\":[]}}", 0, 0)),
        (false, None, 0, ("{\"data\":{\"a\":[]}}", 0, 0)),
    ] {
        if !next_is(alloc, descending, cap, cursor, want, &mut steps)? {
            return Ok(false);
        }
    }
    Ok(true)
}

#[test]
fn the_next_rows_of_a_stream(rt: HostRuntime) -> Result<(), Fail> {
    assert!(rt; streams_are::<Brand>(rt.alloc(), Blank::new(1))?);
    Ok(())
}
