use crate::{NameIndex, NameSet};
use scalar_val::{NoMemory, Str};
use std::alloc::Global;
use std::test::Fail;

const WORDS: [&str; 6] = ["b", "a", "b", "", "c", "a"];

fn strs(alloc: Global, words: &[&str]) -> Result<Vec<Str>, NoMemory> {
    let mut strs = Vec::new(alloc);
    for word in words {
        strs.push(Str::of(alloc, word)?)?;
    }
    Ok(strs)
}

fn pushed<'a>(alloc: Global, names: &'a [Str]) -> Result<NameIndex<'a>, NoMemory> {
    let mut index = NameIndex::new(alloc);
    for name in names {
        index.push(name)?;
    }
    Ok(index)
}

/// The places of the words that were new.
fn inserted(alloc: Global, names: &[Str]) -> Result<Vec<bool>, NoMemory> {
    let mut index = NameIndex::new(alloc);
    let mut new = Vec::new(alloc);
    for name in names {
        new.push(index.insert(name)?)?;
    }
    Ok(new)
}

fn set_of(alloc: Global, words: &[&str]) -> Result<NameSet, NoMemory> {
    let mut set = NameSet::new(alloc);
    for word in words {
        let _new = set.insert(alloc, Str::of(alloc, word)?)?;
    }
    Ok(set)
}

#[test]
fn pushed_names_are_found_at_their_first_places(rt: HostRuntime) -> Result<(), Fail> {
    let names = strs(rt.alloc(), &WORDS)?;
    let index = pushed(rt.alloc(), names.as_slice())?;
    let cases = [
        ("b", Some(0)),
        ("a", Some(1)),
        ("", Some(3)),
        ("c", Some(4)),
        ("d", None),
    ];
    for (name, place) in &cases {
        assert!(rt; index.place(name) == *place && index.contains(name) == place.is_some());
    }
    Ok(())
}

#[test]
fn inserted_names_are_there_once(rt: HostRuntime) -> Result<(), Fail> {
    let names = strs(rt.alloc(), &WORDS)?;
    let new = inserted(rt.alloc(), names.as_slice())?;
    assert!(rt; new.as_slice() == [true, true, false, true, true, false].as_slice());
    let set = set_of(rt.alloc(), &WORDS)?;
    let cases = [
        ("b", Some(0)),
        ("a", Some(1)),
        ("", Some(2)),
        ("c", Some(3)),
        ("d", None),
    ];
    for (name, place) in &cases {
        assert!(rt; set.place(name) == *place && set.contains(name) == place.is_some());
    }
    assert_eq!(rt; set.into_names().len(), 4);
    Ok(())
}
