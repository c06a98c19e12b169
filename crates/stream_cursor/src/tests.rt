ghost use Rattle.std.specs.Prelude.{◌≡◌, ◌+◌, ℕ, true, IfOk, OnOk};
ghost use Rattle.cohort_map.specs.Entries.{has_stream};
ghost use Rattle.stream_cursor.specs.Example.{HasStreams};

use crate::{Move, MoveList, advance, rekey};
use cohort_map::{CohortMap, Member, PollerKey};
use json_out::Outcome;
use plan_core::{Binding, SlotList, ValList};
use scalar_val::{Bytes, NoMemory, Str, Val, Word};
use std::alloc::Global;
use std::test::Fail;

fn outcome(alloc: Global, rows: u64, last: Val) -> Outcome {
    Outcome {
        text: Bytes::of(Vec::new(alloc)),
        rows,
        last,
    }
}

#[test]
fn a_cursor_moves_to_the_last_row_and_stays_without_rows(rt: HostRuntime) -> Result<(), Fail> {
    let alloc = rt.alloc();
    let some = outcome(alloc, 2, Val::Int(5));
    assert!(rt; matches!(advance(&some), Some(Val::Int(5))));
    assert!(rt; advance(&outcome(alloc, 0, Val::Null)).is_none());
    Ok(())
}

/// A map without a subscription.
#[tactic(auto, using(crate::proofs::Examples::empty_streams))]
fn empty(alloc: Global) -> CohortMap
    ensures { HasStreams 1 result }
{
    CohortMap::new(alloc)
}

/// Adds a stream at a cursor; those before it have the lesser numbers.
fn join(alloc: Global, map: &mut CohortMap, sub: u64, cursor: i32) -> Result<(), NoMemory>
    requires { HasStreams sub map.old }
    ensures { OnOk result (HasStreams (sub + 1) map.new) }
{
    let poller = PollerKey {
        word: Word::Subscription,
        role: Str::of(alloc, "admin")?,
        canon: Str::of(alloc, "subscription user_stream")?,
    };
    let binding = Binding {
        vars: SlotList::new(alloc),
        session: ValList::new(alloc),
        cursor: Val::Int(cursor),
    };
    map.join(alloc, sub, poller, binding)
}

fn tick(map: &mut CohortMap) -> u64
    ensures { (next : ℕ) → HasStreams next map.old → HasStreams next map.new }
{
    map.tick()
}

/// Opens the next job, and gives how many members it has.
fn take(alloc: Global, map: &mut CohortMap, job: u64) -> Result<usize, NoMemory>
    ensures { OnOk result ((next : ℕ) → HasStreams next map.old → HasStreams next map.new) }
{
    let members = map.batch(alloc, 100)?;
    map.open_job(job, &members);
    Ok(members.len())
}

/// Moves one stream.
fn move_one(alloc: Global, map: &mut CohortMap, sub: u64, cursor: i32) -> Result<(), NoMemory>
    requires { has_stream sub map.old.entries ≡ true }
{
    let mut moves = MoveList::new(alloc);
    let one = Move {
        sub,
        cursor: Val::Int(cursor),
    };
    match moves.push(one) {
        Ok(()) => rekey(alloc, map, &moves),
        Err(_back) => Err(NoMemory),
    }
}

/// A stream at 0, which is in job 1, and one at a cursor, which joined when that job was open; and how many were due then.
fn newcomer_in_flight(alloc: Global, cursor: i32) -> Result<(CohortMap, u64), NoMemory>
    ensures { IfOk result (λ made. HasStreams 3 made.0) }
{
    let mut map = empty(alloc);
    join(alloc, &mut map, 1, 0)?;
    let _one = tick(&mut map);
    let _one = take(alloc, &mut map, 1)?;
    join(alloc, &mut map, 2, cursor)?;
    let due = tick(&mut map);
    Ok((map, due))
}

// It is due after the job of its cohort, whose result it has no part in.
#[test]
fn a_newcomer_in_flight_waits_for_the_next_job(rt: HostRuntime) -> Result<(), Fail> {
    let alloc = rt.alloc();
    let (mut map, due) = newcomer_in_flight(alloc, 0)?;
    assert!(rt; due == 0);
    assert!(rt; map.busy(2));
    map.close_job(1, false);
    assert!(rt; map.tick() == 2);
    assert_eq!(rt;
        map.batch(alloc, 100)?.as_slice(),
        [Member { sub: 1, id: 1 }, Member { sub: 2, id: 1 }].as_slice()
    );
    Ok(())
}

// It stays at its cursor where the other one's rows are sent.
#[test]
fn a_newcomer_in_flight_stays_where_the_other_stream_moves(rt: HostRuntime) -> Result<(), Fail> {
    let alloc = rt.alloc();
    let (mut map, _due) = newcomer_in_flight(alloc, 0)?;
    move_one(alloc, &mut map, 1, 5)?;
    map.close_job(1, false);
    assert_eq!(rt; map.members(alloc, 1)?.as_slice(), [1].as_slice());
    assert_eq!(rt; map.members(alloc, 2)?.as_slice(), [2].as_slice());
    assert!(rt;
        map.binding_of(1)
            .is_some_and(|binding| matches!(binding.cursor, Val::Int(5)))
    );
    assert!(rt;
        map.binding_of(2)
            .is_some_and(|binding| matches!(binding.cursor, Val::Int(0)))
    );
    Ok(())
}

/// The first stream moves from 0 to 5, where the second one is in job 2; and how many were due before.
fn met(alloc: Global) -> Result<(CohortMap, u64), NoMemory> {
    let (mut map, due) = newcomer_in_flight(alloc, 5)?;
    let _one = take(alloc, &mut map, 2)?;
    move_one(alloc, &mut map, 1, 5)?;
    map.close_job(1, false);
    Ok((map, due))
}

// From then on they are one cohort, which is busy while the second one's job is open.
#[test]
fn streams_meet(rt: HostRuntime) -> Result<(), Fail> {
    let alloc = rt.alloc();
    let (mut map, due) = met(alloc)?;
    assert!(rt; due == 1);
    assert_eq!(rt; map.members(alloc, 1)?.as_slice(), [1, 2].as_slice());
    assert!(rt; map.tick() == 0);
    map.close_job(2, false);
    assert!(rt; map.tick() == 2);
    assert_eq!(rt;
        map.batch(alloc, 100)?.as_slice(),
        [Member { sub: 1, id: 1 }, Member { sub: 2, id: 1 }].as_slice()
    );
    Ok(())
}

/// The first stream moves to 5 and the second one to 0.
fn exchange(alloc: Global, map: &mut CohortMap) -> Result<(), NoMemory>
    requires one { has_stream 1 map.old.entries ≡ true }
    requires two { has_stream 2 map.old.entries ≡ true }
{
    let one = Move {
        sub: 1,
        cursor: Val::Int(5),
    };
    let two = Move {
        sub: 2,
        cursor: Val::Int(0),
    };
    let moves = MoveList::from_vec(Vec::from_array(alloc, [one, two])?);
    rekey(alloc, map, &moves)
}

/// The first and the third stream are at 0 and the second one is at 5, before the first two change places.
fn exchanged(alloc: Global) -> Result<CohortMap, NoMemory> {
    let (mut map, _due) = newcomer_in_flight(alloc, 5)?;
    join(alloc, &mut map, 3, 0)?;
    exchange(alloc, &mut map)?;
    Ok(map)
}

#[test]
fn two_streams_change_places_and_a_third_one_stays(rt: HostRuntime) -> Result<(), Fail> {
    let alloc = rt.alloc();
    let map = exchanged(alloc)?;
    assert_eq!(rt; map.members(alloc, 1)?.as_slice(), [1].as_slice());
    assert_eq!(rt; map.members(alloc, 3)?.as_slice(), [2, 3].as_slice());
    Ok(())
}
