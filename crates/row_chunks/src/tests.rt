ghost use Rattle.std.specs.Prelude.{◌≡◌, ◌<◌};

use crate::{RowChunks, TryCopy};
use scalar_val::{NoMemory, Steps};
use std::alloc::Global;
use std::marker::Brand;
use std::sync::ledger::{Blank, Ledger};
use std::test::Fail;

/// A row that is only its key.
#[derive(Debug, Drop)]
struct Key {
    key: u32,
}

impl TryCopy for Key {
    fn try_copy(&self, _alloc: Global) -> Result<Key, NoMemory> {
        Ok(Key { key: self.key })
    }
}

/// Adds the keys from one to another, in order.
fn add<L: Ledger>(
    alloc: Global,
    list: &mut RowChunks<Key>,
    from: u32,
    to: u32,
    steps: &mut Steps<L>,
) -> Result<(), NoMemory> {
    for key in from..to {
        let place = list.len();
        list.insert(alloc, place, Key { key }, steps)?;
    }
    Ok(())
}

/// Takes out so many rows at a place.
fn take_out<L: Ledger>(
    alloc: Global,
    list: &mut RowChunks<Key>,
    place: usize,
    rows: u32,
    steps: &mut Steps<L>,
) -> Result<(), NoMemory> {
    for _row in 0..rows {
        if place < list.len() {
            list.remove(alloc, place, steps)?;
        }
    }
    Ok(())
}

/// Whether the list has exactly the keys from one to another, in order, by its chunks and by its places.
fn has_keys(list: &RowChunks<Key>, from: u32, to: u32) -> bool {
    let mut walk = list.walk(0);
    let mut rows: &[Key] = &[];
    for (place, key) in (from..to).enumerate() {
        if rows.is_empty() {
            rows = match walk.next() {
                Some(rows) => rows,
                None => return false,
            };
        }
        let [row, rest @ ..] = rows else {
            return false;
        };
        rows = rest;
        if row.key != key || !is_at(list, place, key) {
            return false;
        }
    }
    rows.is_empty() && walk.next().is_none()
}

fn is_at(list: &RowChunks<Key>, place: usize, key: u32) -> bool {
    match list.get(place) {
        Some(row) => row.key == key,
        None => false,
    }
}

fn in_and_out<L: Ledger>(alloc: Global, steps: &mut Steps<L>) -> Result<[bool; 3], NoMemory> {
    let mut list = RowChunks::new(alloc)?;
    add(alloc, &mut list, 1, 131, steps)?;
    let whole = has_keys(&list, 1, 131);
    take_out(alloc, &mut list, 100, 30, steps)?;
    let front = has_keys(&list, 1, 101);
    take_out(alloc, &mut list, 0, 100, steps)?;
    Ok([whole, front, has_keys(&list, 1, 1)])
}

fn shared<L: Ledger>(alloc: Global, steps: &mut Steps<L>) -> Result<[bool; 2], NoMemory> {
    let mut list = RowChunks::new(alloc)?;
    add(alloc, &mut list, 1, 131, steps)?;
    let before = list.share()?;
    add(alloc, &mut list, 131, 132, steps)?;
    take_out(alloc, &mut list, 0, 40, steps)?;
    Ok([has_keys(&list, 41, 132), has_keys(&before, 1, 131)])
}

fn all<L: Ledger>(alloc: Global, blank: Blank) -> Result<([bool; 3], [bool; 2]), NoMemory>
    requires name { blank.name ≡ L.name }
    requires parts { blank.parts ≡ L.parts }
    requires some { 0 < blank.parts }
{
    let mut steps = Steps::<L>::new(blank);
    let alone = in_and_out(alloc, &mut steps)?;
    let share = shared(alloc, &mut steps)?;
    Ok((alone, share))
}

#[test]
fn rows_stand_in_order_and_a_share_keeps_its_own(rt: HostRuntime) -> Result<(), Fail> {
    let (alone, share) = all::<Brand>(rt.alloc(), Blank::new(1))?;
    assert!(rt; alone == [true, true, true]);
    assert!(rt; share == [true, true]);
    Ok(())
}
