//! Streams of some pollers, each with a variable.
ghost use Rattle.std.specs.Prelude.{◌≡◌, ◌+◌, false, IfOk, OnOk};
ghost use Rattle.scalar_val.specs.Values.{is_null};
ghost use Rattle.stream_cursor.specs.Example.{HasStreams};
ghost use Rattle.bench_cohorts.specs.Numbered.{AreNumbered};

use cohort_map::{CohortMap, PollerKey};
use plan_core::{Binding, Slot, SlotList, ValList};
use scalar_val::{NoMemory, Str, Val, Word};
use std::alloc::Global;
use stream_cursor::{Move, MoveList, rekey};

const CANON: &str = "subscription post:post(where:{author_id:{_eq:$0}}){id:id title:title}";

fn poller(alloc: Global, number: u32) -> Result<PollerKey, NoMemory> {
    let canon = format!(in alloc; "{CANON}{number}")?;
    Ok(PollerKey {
        word: Word::Subscription,
        role: Str::of(alloc, "reader")?,
        canon: Str::of(alloc, canon.as_str())?,
    })
}

fn binding(alloc: Global, variable: u32) -> Result<Binding, NoMemory>
    ensures { IfOk result (λ binding. is_null binding.cursor ≡ false) }
{
    let mut vars = SlotList::new(alloc);
    match vars.push(Slot::One(Val::Big(variable as i64))) {
        Ok(()) => Ok(Binding {
            vars,
            session: ValList::new(alloc),
            cursor: Val::Int(0),
        }),
        Err(_back) => Err(NoMemory),
    }
}

/// The number of one of so many groups, in turn.
fn group(number: u32, groups: u32) -> u32 {
    if groups == 0 { 0 } else { number % groups }
}

/// Joins so many subscriptions, of so many values and so many pollers.
pub fn join_all(
    alloc: Global,
    map: &mut CohortMap,
    count: u32,
    values: u32,
    pollers: u32,
) -> Result<(), NoMemory>
    requires { HasStreams 1 map.old }
    ensures { OnOk result (HasStreams (count + 1) map.new) }
{
    for number in 0..count {
        let poller = poller(alloc, group(number, pollers))?;
        let binding = binding(alloc, group(number, values))?;
        map.join(alloc, number as u64 + 1, poller, binding)?;
    }
    Ok(())
}

/// Moves of the numbers from 1 on to one cursor.
fn moves(alloc: Global, count: u32) -> Result<MoveList, NoMemory>
    ensures { IfOk result (λ moves. AreNumbered (count + 1) moves) }
{
    let mut moves = Vec::with_capacity(alloc, count as usize)?;
    for number in 0..count {
        moves.push(Move {
            sub: number as u64 + 1,
            cursor: Val::Int(1),
        })?;
    }
    Ok(MoveList::from_vec(moves))
}

/// Moves all subscriptions to another cursor by one call.
pub fn move_all(alloc: Global, map: &mut CohortMap, count: u32) -> Result<(), NoMemory>
    requires { HasStreams (count + 1) map.old }
{
    let moves = moves(alloc, count)?;
    rekey(alloc, map, &moves)
}
