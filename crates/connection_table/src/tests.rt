use crate::ConnectionTable;
use machine::Phase;
use outbox::OutText;
use role_model::{Session, StrMap};
use scalar_val::Str;
use std::alloc::Global;
use std::test::Fail;
use wire_model::CloseReason;

fn queue(alloc: Global, table: &mut ConnectionTable, conn: u32, text: &str) -> Result<(), Fail> {
    table.queue(conn, OutText::of(alloc, text.as_bytes())?)?;
    Ok(())
}

fn pops(table: &mut ConnectionTable, conn: u32, expected: &str) -> bool {
    match table.pop(conn) {
        Some(text) => text.as_bytes() == expected.as_bytes(),
        None => false,
    }
}

fn acts_as(table: &ConnectionTable, conn: u32, role: &str) -> bool {
    match table.phase(conn) {
        Some(Phase::Acknowledged { session }) => session.role.as_str() == role,
        _ => false,
    }
}

fn is_send_and_sync<T: Send + Sync>() {}

#[test]
fn a_table_may_be_shared_with_other_threads() {
    is_send_and_sync::<ConnectionTable>();
}

#[test]
fn a_new_table_is_empty(rt: HostRuntime) -> Result<(), Fail> {
    let mut table = ConnectionTable::new(rt.alloc());
    assert_eq!(rt; table.len(), 0);
    assert!(rt; !table.knows(7));
    assert!(rt; table.phase(7).is_none());
    assert!(rt; table.live(7).is_empty());
    assert!(rt; table.pop(7).is_none());
    Ok(())
}

#[test]
fn a_connection_is_known_until_it_is_removed(rt: HostRuntime) -> Result<(), Fail> {
    let alloc = rt.alloc();
    let mut table = ConnectionTable::new(alloc);
    for conn in [3, 1, 2] {
        if !table.knows(conn) {
            table.insert(alloc, conn)?;
        }
    }
    assert_eq!(rt; table.len(), 3);
    table.remove(2);
    assert!(rt; !table.knows(2));
    assert!(rt; table.knows(1) && table.knows(3));
    Ok(())
}

#[test]
fn a_connection_is_acknowledged_and_closed(rt: HostRuntime) -> Result<(), Fail> {
    let alloc = rt.alloc();
    let mut table = ConnectionTable::new(alloc);
    table.insert(alloc, 5)?;
    assert!(rt; matches!(table.phase(5), Some(Phase::Fresh)));
    table.acknowledge(
        5,
        Session {
            role: Str::of(alloc, "user")?,
            vars: StrMap::new(alloc),
        },
    );
    assert!(rt; acts_as(&table, 5, "user"));
    table.close(5, CloseReason::Invalid);
    assert!(rt;
        matches!(
            table.phase(5),
            Some(Phase::Closed {
                reason: CloseReason::Invalid
            })
        )
    );
    Ok(())
}

#[test]
fn live_numbers_end_one_by_one_and_with_the_close(rt: HostRuntime) -> Result<(), Fail> {
    let alloc = rt.alloc();
    let mut table = ConnectionTable::new(alloc);
    table.insert(alloc, 5)?;
    for number in [2, 4, 9] {
        table.add_live(5, number)?;
    }
    table.forget(5, 4);
    assert_eq!(rt; table.live(5), [2, 9].as_slice());
    table.close(5, CloseReason::Unauthorized);
    assert!(rt; table.live(5).is_empty());
    Ok(())
}

#[test]
fn each_queue_gives_its_texts_in_order(rt: HostRuntime) -> Result<(), Fail> {
    let alloc = rt.alloc();
    let mut table = ConnectionTable::new(alloc);
    table.insert(alloc, 1)?;
    for text in ["a", "", "b"] {
        queue(alloc, &mut table, 1, text)?;
    }
    for text in ["a", "", "b"] {
        assert!(rt; pops(&mut table, 1, text));
    }
    assert!(rt; table.pop(1).is_none());
    Ok(())
}

#[test]
fn promised_texts_are_queued(rt: HostRuntime) -> Result<(), Fail> {
    let alloc = rt.alloc();
    let mut table = ConnectionTable::new(alloc);
    let text = OutText::of(alloc, b"promised")?;
    table.insert(alloc, 1)?;
    table.promise(1)?;
    table.promise(1)?;
    table.keep_promise(1, text);
    table.drop_promises();
    assert!(rt; pops(&mut table, 1, "promised"));
    Ok(())
}
