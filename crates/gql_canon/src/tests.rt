ghost use Rattle.std.specs.Prelude.{◌≡◌, ◌≤◌, ◌++◌, ◌∷◌, length, map, take, drop, All, IfOk, ◌<◌};
ghost use Rattle.std.specs.Ordering.{nat_cmp, is_le};
ghost use Rattle.std.specs.Cmp.Lexicographic.{slice_cmp};
ghost use Rattle.request_model.specs.declared.document.GValue.TheViews.{out-GPair};
ghost use Rattle.request_model.specs.Selection.{by_name};
ghost use Rattle.scalar_val.specs.Ordered.{placed};
ghost use Rattle.gql_canon.specs.Names.{compare_names};

use crate::same::same_refs;
use crate::{ordered_by_name, same_ordered};
use request_model::{GPair, GPairs, GValue};
use scalar_val::{List, NoMemory, Str};
use std::alloc::Global;
use std::cmp::Ordering;
use std::test::Fail;

/// Whether the first name isn't above the second.
fn is_before(a: &GPair, b: &GPair) -> bool
    ensures { result ≡ is_le (compare_names a.now b.now) }
{
    let order = a.name.as_str().as_bytes().cmp(b.name.as_str().as_bytes());
    order != Ordering::Greater
}

/// The place of the pair before the first one that it isn't above.
fn place(pairs: &[&GPair], pair: &GPair) -> usize
    ensures within { result ≤ length pairs.now }
    ensures placed { let names = map (λ p. p.now) pairs.now in
        take result names ++ pair.now ∷ drop result names ≡ placed compare_names pair.now names }
{
    for (index, other) in pairs.iter().enumerate() {
        if is_before(pair, other) {
            return index;
        }
    }
    pairs.len()
}

/// The order as it is defined: each pair is put in its place.
fn plain_order<'a>(alloc: Global, pairs: &'a [GPair]) -> Result<Vec<&'a GPair>, NoMemory>
    ensures { IfOk result (λ ordered. map (λ p. p.now) ordered.items ≡ by_name pairs.now) }
{
    let mut ordered = Vec::new(alloc);
    for turn in 0..pairs.len() {
        let pair = &pairs[pairs.len() - 1 - turn];
        let index = place(ordered.as_slice(), pair);
        ordered.insert(index, pair)?;
    }
    Ok(ordered)
}

fn add(alloc: Global, pairs: &mut GPairs, name: &str, digits: &str) -> Result<(), Fail> {
    let name = Str::of(alloc, name)?;
    let value = GValue::Int(Str::of(alloc, digits)?);
    match pairs.push(GPair { name, value }) {
        Ok(()) => Ok(()),
        Err(_back) => Err(Fail::from("no memory")),
    }
}

/// Arguments of these names, of which each has its place as its value.
fn arguments(alloc: Global, names: &str) -> Result<GPairs, Fail> {
    let mut pairs = List::new(alloc);
    for (number, name) in names.split_whitespace().enumerate() {
        add(alloc, &mut pairs, name, number.to_string(alloc)?.as_str())?;
    }
    Ok(pairs)
}

/// So many arguments, whose names come back after so many and are in no order between.
fn scattered(alloc: Global, count: usize, names: usize) -> Result<GPairs, Fail>
    requires { (0 < names) × (count ≤ 10000) }
{
    let mut pairs = List::new(alloc);
    for number in 0..count {
        let name = (number * 7919 % names).to_string(alloc)?;
        let digits = number.to_string(alloc)?;
        add(alloc, &mut pairs, name.as_str(), digits.as_str())?;
    }
    Ok(pairs)
}

/// So many arguments in descending order.
fn descending(alloc: Global, count: usize) -> Result<GPairs, Fail>
    requires { count ≤ 10000 }
{
    let mut pairs = List::new(alloc);
    for number in 0..count {
        let name = (99999 - number).to_string(alloc)?;
        add(alloc, &mut pairs, name.as_str(), "1")?;
    }
    Ok(pairs)
}

/// The places of the arguments, each with a comma behind it.
fn places(alloc: Global, ordered: &[&GPair]) -> Result<String, Fail> {
    let mut text = String::new(alloc);
    for pair in ordered {
        if let GValue::Int(digits) = &pair.value {
            text.push_str(digits.as_str())?;
            text.push_str(",")?;
        }
    }
    Ok(text)
}

fn both_orders_are(alloc: Global, names: &str, expected: &str) -> Result<bool, Fail> {
    let pairs = arguments(alloc, names)?;
    let ordered = ordered_by_name(alloc, pairs.as_slice())?;
    let plain = plain_order(alloc, pairs.as_slice())?;
    Ok(
        same_refs(ordered.as_slice(), plain.as_slice())
            && places(alloc, ordered.as_slice())?.as_str() == expected,
    )
}

/// The first case with another order: the names, and the places in order.
fn wrong_case(alloc: Global, cases: &[(&str, &str)]) -> Result<Option<usize>, Fail> {
    for (index, (names, expected)) in cases.iter().enumerate() {
        if !both_orders_are(alloc, names, expected)? {
            return Ok(Some(index));
        }
    }
    Ok(None)
}

#[test]
fn arguments_in_order(rt: HostRuntime) -> Result<(), Fail> {
    let cases = [
        ("", ""),
        ("id", "0,"),
        ("a b c d", "0,1,2,3,"),
        ("d c b a", "3,2,1,0,"),
        ("id id id", "0,1,2,"),
        ("b a b a", "1,3,0,2,"),
        ("where limit Where order_by limit where_", "2,1,4,3,0,5,"),
        ("aa a _ A a1", "3,2,1,4,0,"),
        (
            "z y x w v u t s r q p o n m l k j i h g f e d c b a",
            "25,24,23,22,21,20,19,18,17,16,15,14,13,12,11,10,9,8,7,6,5,4,3,2,1,0,",
        ),
        (
            "b b b b b b b b b b b b a a a a a a a a a a a a",
            "12,13,14,15,16,17,18,19,20,21,22,23,0,1,2,3,4,5,6,7,8,9,10,11,",
        ),
    ];
    if let Some(index) = wrong_case(rt.alloc(), &cases)? {
        println!(rt; "case {index}")?;
        return Err(Fail::from("another order"));
    }
    Ok(())
}

/// Whether both orders of scattered arguments are the same, at each of the counts.
fn scattered_alike(alloc: Global, counts: &[usize]) -> Result<bool, Fail>
    requires { All (λ n. n ≤ 10000) counts.now }
{
    for count in counts {
        let pairs = scattered(alloc, *count, 37)?;
        let ordered = ordered_by_name(alloc, pairs.as_slice())?;
        let plain = plain_order(alloc, pairs.as_slice())?;
        if !same_refs(ordered.as_slice(), plain.as_slice()) {
            return Ok(false);
        }
    }
    Ok(true)
}

#[test]
fn long_lists_as_the_plain_order(rt: HostRuntime) -> Result<(), Fail> {
    assert!(rt; scattered_alike(rt.alloc(), &[20, 21, 64, 65, 500])?);
    Ok(())
}

/// Whether descending arguments are those of their order, so many times.
fn stay_the_same(alloc: Global, count: usize, times: u32) -> Result<bool, Fail>
    requires { count ≤ 10000 }
{
    let pairs = descending(alloc, count)?;
    let ordered = ordered_by_name(alloc, pairs.as_slice())?;
    for _ in 0..times {
        if !same_ordered(alloc, ordered.as_slice(), pairs.as_slice())? {
            return Ok(false);
        }
    }
    Ok(true)
}

/// An order whose time grows with the square of the count would take minutes.
#[test]
fn many_descending_arguments(rt: HostRuntime) -> Result<(), Fail> {
    assert!(rt; stay_the_same(rt.alloc(), 2000, 400)?);
    assert!(rt; stay_the_same(rt.alloc(), 10000, 400)?);
    Ok(())
}

/// Arguments of these names, of which each has one of the digits as its value.
fn valued(alloc: Global, names: &str, digits: &str) -> Result<GPairs, Fail> {
    let mut pairs = List::new(alloc);
    for (name, digit) in names.split_whitespace().zip(digits.split_whitespace()) {
        add(alloc, &mut pairs, name, digit)?;
    }
    Ok(pairs)
}

/// The first case with another answer: names and values of both, and whether they are the same.
fn wrong_pair(
    alloc: Global,
    cases: &[(&str, &str, &str, &str, bool)],
) -> Result<Option<usize>, Fail> {
    for (index, (names, digits, others, other_digits, expected)) in cases.iter().enumerate() {
        let a = valued(alloc, names, digits)?;
        let b = valued(alloc, others, other_digits)?;
        let ordered = ordered_by_name(alloc, a.as_slice())?;
        if same_ordered(alloc, ordered.as_slice(), b.as_slice())? != *expected {
            return Ok(Some(index));
        }
    }
    Ok(None)
}

#[test]
fn arguments_that_are_the_same(rt: HostRuntime) -> Result<(), Fail> {
    let cases = [
        ("", "", "", "", true),
        ("a b", "1 2", "a b", "1 2", true),
        ("a b", "1 2", "b a", "2 1", true),
        ("a b", "1 2", "b a", "1 2", false),
        ("a b", "1 2", "a", "1", false),
        ("a b", "1 2", "a c", "1 2", false),
        ("a b a", "1 2 3", "b a a", "2 1 3", true),
        ("a b a", "1 2 3", "b a a", "2 3 1", false),
    ];
    if let Some(index) = wrong_pair(rt.alloc(), &cases)? {
        println!(rt; "case {index}")?;
        return Err(Fail::from("another answer"));
    }
    Ok(())
}
