ghost use Rattle.std.specs.Prelude.{◌≡◌, [], ◌++◌, OnOk, OnErr};
ghost use Rattle.stream_cursor.specs.Moves.{AreApart, AreStreams, rekeyed};
ghost use Rattle.stream_cursor.specs.Steps.{AreThere, AreReady, pairs};

use cohort_map::CohortMap;
use scalar_val::{List, NoMemory, Val};
use std::alloc::Global;

pub type MoveList = List<Move>;

/// A stream, and the cursor that it moves to.
#[derive(Debug, Drop)]
pub struct Move {
    pub sub: u64,
    pub cursor: Val,
}

/// Makes every move ready.
fn make_ready(alloc: Global, map: &mut CohortMap, moves: &[Move]) -> Result<(), NoMemory>
    requires { AreStreams moves.now map.old.entries }
    ensures entries { map.new.entries ≡ map.old.entries }
    ensures ok { OnOk result (map.new.ready ≡ map.old.ready ++ pairs moves.now) }
{
    for one in moves {
        map.ready(alloc, one.sub, &one.cursor)?;
    }
    Ok(())
}

/// Makes the moves, which are ready.
fn move_all(map: &mut CohortMap, moves: &[Move])
    requires there { AreThere moves.now map.old.entries }
    requires ready { AreReady moves.now map.old.ready }
    requires apart { AreApart moves.now }
    ensures entries { map.new.entries ≡ rekeyed moves.now map.old.entries }
{
    for one in moves {
        map.rehome(one.sub, &one.cursor);
    }
}

/// Moves each named subscription to the cohort of its new cursor, and leaves all others. It needs subscriptions that are
/// streams of the map, entries whose cursor isn't null, each named once. For want of memory it moves none. The list of ready
/// pairs is empty after it in any case.
pub fn rekey(alloc: Global, map: &mut CohortMap, moves: &MoveList) -> Result<(), NoMemory>
    requires streams { AreStreams moves.now map.old.entries }
    requires apart { AreApart moves.now }
    ensures ok { OnOk result (map.new.entries ≡ rekeyed moves.now map.old.entries) }
    ensures err { OnErr result (map.new.entries ≡ map.old.entries) }
    ensures ready { map.new.ready ≡ [] }
{
    map.unready();
    let made = make_ready(alloc, map, moves.as_slice());
    if made.is_ok() {
        move_all(map, moves.as_slice());
    }
    map.unready();
    made
}
