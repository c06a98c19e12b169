ghost use Rattle.std.specs.Prelude.{◌+◌, ◌<◌, All, OnOk};

use crate::{Held, SharedPlan, SubscriptionTable};
use plan_core::{FieldList, Filter, FilterList, OrderList, Plan, Select, Shape, StrList};
use query_model::SubKind;
use resp_keep::{Kept, SharedKept};
use scalar_val::{Bytes, NoMemory, Str};
use std::alloc::Global;
use std::test::Fail;

fn shared_plan(alloc: Global, key: &str) -> Result<SharedPlan, NoMemory> {
    let root = Select {
        table: 0,
        shape: Shape::List,
        filter: Filter::And(FilterList::new(alloc)),
        order: OrderList::new(alloc),
        limit: None,
        offset: None,
        cap: None,
        fields: FieldList::new(alloc),
    };
    let plan = Plan {
        key: Str::of(alloc, key)?,
        names: StrList::new(alloc),
        root,
    };
    SharedPlan::of(alloc, plan)
}

fn text(alloc: Global, text: &str) -> Result<SharedKept, NoMemory> {
    let bytes = Vec::from_slice(alloc, text.as_bytes())?;
    SharedKept::of(alloc, Kept::new(Bytes::of(bytes)))
}

fn add(alloc: Global, table: &mut SubscriptionTable, number: u64, id: &str) -> Result<(), NoMemory>
    requires { All (λ h. h.number < number) table.old }
    ensures { OnOk result (All (λ h. h.number < number + 1) table.new) }
{
    let held = Held {
        number,
        connection: 7,
        id: Str::of(alloc, id)?,
        kind: SubKind::Live,
        plan: shared_plan(alloc, id)?,
        last: None,
    };
    table.push(held)
}

/// A table of the subscriptions 2, 5 and 9, whose ids are `a`, `b` and `c`.
fn filled(alloc: Global) -> Result<SubscriptionTable, NoMemory> {
    let mut table = SubscriptionTable::new(alloc);
    add(alloc, &mut table, 2, "a")?;
    add(alloc, &mut table, 5, "b")?;
    add(alloc, &mut table, 9, "c")?;
    Ok(table)
}

/// Writes a subscription's id and the text of its last result.
fn tell(told: &mut Vec<u8>, held: &Held) -> Result<(), NoMemory> {
    told.extend_from_slice(held.id.as_str().as_bytes())?;
    if let Some(last) = &held.last {
        told.extend_from_slice(last.kept().text().as_slice())?;
    }
    Ok(())
}

/// The subscriptions below 10.
fn told(alloc: Global, table: &SubscriptionTable) -> Result<Vec<u8>, NoMemory> {
    let mut told = Vec::new(alloc);
    for number in 0..10 {
        if let Some(held) = table.get(number) {
            tell(&mut told, held)?;
        }
    }
    Ok(told)
}

fn is_send_and_sync<T: Send + Sync>() {}

#[test]
fn plans_and_tables_may_be_shared_with_other_threads() {
    is_send_and_sync::<SharedPlan>();
    is_send_and_sync::<SubscriptionTable>();
}

#[test]
fn subscriptions_are_found_by_their_numbers(rt: HostRuntime) -> Result<(), Fail> {
    let alloc = rt.alloc();
    let table = filled(alloc)?;
    table.ascend();
    assert!(rt; table.len() == 3);
    assert!(rt; table.get(4).is_none());
    assert_eq!(rt; told(alloc, &table)?.as_slice(), b"abc".as_slice());
    Ok(())
}

#[test]
fn only_the_subscription_of_a_number_is_taken_away(rt: HostRuntime) -> Result<(), Fail> {
    let alloc = rt.alloc();
    let mut table = filled(alloc)?;
    table.remove(5);
    table.remove(4);
    assert!(rt; table.len() == 2);
    assert_eq!(rt; told(alloc, &table)?.as_slice(), b"ac".as_slice());
    Ok(())
}

#[test]
fn the_last_of_several_texts_is_kept(rt: HostRuntime) -> Result<(), Fail> {
    let alloc = rt.alloc();
    let mut table = filled(alloc)?;
    table.remember(5, text(alloc, "1")?);
    table.remember(5, text(alloc, "2")?);
    table.remember(4, text(alloc, "3")?);
    assert_eq!(rt; told(alloc, &table)?.as_slice(), b"ab2c".as_slice());
    Ok(())
}

#[test]
fn owners_share_one_plan(rt: HostRuntime) -> Result<(), Fail> {
    let alloc = rt.alloc();
    let plan = shared_plan(alloc, "item")?;
    let other = plan.share()?;
    drop(plan);
    assert_eq!(rt; other.plan().key.as_str(), "item");
    Ok(())
}
