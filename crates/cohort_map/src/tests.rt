ghost use Rattle.std.specs.Prelude.{◌≤◌, ◌≡◌};

use crate::{CohortMap, Member, MemberList, PollerKey};
use plan_core::{Binding, Slot, SlotList, ValList};
use scalar_val::{NoMemory, Str, Val, Word};
use std::alloc::Global;
use std::test::Fail;

fn poller(alloc: Global, role: &str) -> Result<PollerKey, NoMemory> {
    Ok(PollerKey {
        word: Word::Subscription,
        role: Str::of(alloc, role)?,
        canon: Str::of(alloc, "subscription user:user{id:id}")?,
    })
}

/// Values with one variable and one session value.
fn binding(alloc: Global, variable: i32, session: i32) -> Result<Binding, NoMemory> {
    let mut vars = SlotList::new(alloc);
    let mut values = ValList::new(alloc);
    if vars.push(Slot::One(Val::Int(variable))).is_err() {
        return Err(NoMemory);
    }
    if values.push(Val::Int(session)).is_err() {
        return Err(NoMemory);
    }
    Ok(Binding {
        vars,
        session: values,
        cursor: Val::Null,
    })
}

/// A map of the subscriptions 1, 2 and so on, each with its role, variable and session value.
fn filled(alloc: Global, values: &[(&str, i32, i32)]) -> Result<CohortMap, NoMemory> {
    let mut map = CohortMap::new(alloc);
    let mut next = 1u64;
    for value in values {
        let poller = poller(alloc, value.0)?;
        let binding = binding(alloc, value.1, value.2)?;
        map.join(alloc, next, poller, binding)?;
        next += 1;
    }
    Ok(map)
}

/// A map of so many subscriptions of one poller, each with a variable of its own.
fn numbered(alloc: Global, count: u32) -> Result<CohortMap, NoMemory> {
    let mut map = CohortMap::new(alloc);
    for variable in 0..count {
        let poller = poller(alloc, "user")?;
        let binding = binding(alloc, (variable % 1000) as i32, 0)?;
        map.join(alloc, variable as u64 + 1, poller, binding)?;
    }
    Ok(map)
}

/// The numbers and result ids of the next batch, each with a space behind it.
fn told(alloc: Global, members: &MemberList) -> Result<String, NoMemory> {
    let mut text = String::new(alloc);
    for member in members.as_slice() {
        let one = format!(in alloc; "{}:{} ", member.sub, member.id)?;
        text.push_str(one.as_str())?;
    }
    Ok(text)
}

/// Opens the next job with at most so many cohorts, and tells its members.
fn take(alloc: Global, map: &mut CohortMap, job: u64, limit: u32) -> Result<String, NoMemory>
    requires { 1 ≤ limit }
{
    let members = map.batch(alloc, limit)?;
    map.open_job(job, &members);
    told(alloc, &members)
}

fn is_send_and_sync<T: Send + Sync>() {}

#[test]
fn a_map_may_be_shared_with_other_threads() {
    is_send_and_sync::<CohortMap>();
    is_send_and_sync::<MemberList>();
    is_send_and_sync::<PollerKey>();
}

#[test]
fn subscriptions_beyond_a_batch_come_with_the_next_one(rt: HostRuntime) -> Result<(), Fail> {
    let alloc = rt.alloc();
    let mut map = filled(
        alloc,
        [("user", 1, 0), ("user", 2, 0), ("user", 3, 0)].as_slice(),
    )?;
    assert!(rt; map.tick() == 3);
    assert_eq!(rt; take(alloc, &mut map, 1, 2)?.as_str(), "1:1 2:2 ");
    map.close_job(1, false);
    assert_eq!(rt; take(alloc, &mut map, 2, 2)?.as_str(), "3:1 ");
    assert!(rt; map.due() == 0);
    Ok(())
}

#[test]
fn a_hundred_and_one_cohorts_are_two_batches(rt: HostRuntime) -> Result<(), Fail> {
    let alloc = rt.alloc();
    let mut map = numbered(alloc, 101)?;
    assert!(rt; map.tick() == 101);
    let members = map.batch(alloc, 100)?;
    assert!(rt; members.len() == 100);
    assert!(rt;
        members
            .as_slice()
            .first()
            .is_some_and(|first| *first == Member { sub: 1, id: 1 })
    );
    assert!(rt;
        members
            .as_slice()
            .last()
            .is_some_and(|last| *last == Member { sub: 100, id: 100 })
    );
    map.open_job(1, &members);
    assert_eq!(rt; take(alloc, &mut map, 2, 100)?.as_str(), "101:1 ");
    assert_eq!(rt; take(alloc, &mut map, 3, 100)?.as_str(), "");
    Ok(())
}

#[test]
fn equal_variables_share_a_cohort(rt: HostRuntime) -> Result<(), Fail> {
    let alloc = rt.alloc();
    let mut map = filled(
        alloc,
        [("user", 7, 1), ("user", 7, 1), ("user", 7, 2)].as_slice(),
    )?;
    assert!(rt; map.tick() == 3);
    assert_eq!(rt; map.members(alloc, 1)?.as_slice(), [1, 2].as_slice());
    assert_eq!(rt; take(alloc, &mut map, 1, 1)?.as_str(), "1:1 2:1 ");
    assert_eq!(rt; take(alloc, &mut map, 2, 1)?.as_str(), "3:1 ");
    Ok(())
}

#[test]
fn another_role_has_a_batch_of_its_own(rt: HostRuntime) -> Result<(), Fail> {
    let alloc = rt.alloc();
    let mut map = filled(
        alloc,
        [("user", 1, 0), ("admin", 1, 0), ("user", 2, 0)].as_slice(),
    )?;
    assert!(rt; map.tick() == 3);
    assert_eq!(rt; take(alloc, &mut map, 1, 100)?.as_str(), "1:1 3:2 ");
    assert_eq!(rt; take(alloc, &mut map, 2, 100)?.as_str(), "2:1 ");
    assert_eq!(rt; take(alloc, &mut map, 3, 100)?.as_str(), "");
    Ok(())
}

#[test]
fn batches_of_two_pollers_pass_over_each_other(rt: HostRuntime) -> Result<(), Fail> {
    let alloc = rt.alloc();
    let mut map = filled(
        alloc,
        [
            ("user", 1, 0),
            ("admin", 1, 0),
            ("user", 2, 0),
            ("admin", 2, 0),
            ("user", 1, 0),
            ("admin", 2, 0),
        ]
        .as_slice(),
    )?;
    assert!(rt; map.leave(1));
    assert!(rt; map.tick() == 5);
    assert_eq!(rt; take(alloc, &mut map, 1, 1)?.as_str(), "2:1 ");
    assert_eq!(rt; take(alloc, &mut map, 2, 1)?.as_str(), "3:1 ");
    assert_eq!(rt; take(alloc, &mut map, 3, 1)?.as_str(), "4:1 6:1 ");
    map.close_job(1, true);
    assert_eq!(rt; take(alloc, &mut map, 4, 2)?.as_str(), "2:1 ");
    assert_eq!(rt; take(alloc, &mut map, 5, 2)?.as_str(), "5:1 ");
    assert_eq!(rt; take(alloc, &mut map, 6, 2)?.as_str(), "");
    Ok(())
}

#[test]
fn an_abandoned_jobs_members_are_due_again(rt: HostRuntime) -> Result<(), Fail> {
    let alloc = rt.alloc();
    let mut map = filled(alloc, [("user", 1, 0)].as_slice())?;
    assert!(rt; map.tick() == 1);
    assert_eq!(rt; take(alloc, &mut map, 1, 100)?.as_str(), "1:1 ");
    map.close_job(1, true);
    assert_eq!(rt; take(alloc, &mut map, 2, 100)?.as_str(), "1:1 ");
    map.close_job(2, false);
    assert_eq!(rt; take(alloc, &mut map, 3, 100)?.as_str(), "");
    Ok(())
}

#[test]
fn an_ended_member_keeps_its_cohort_busy(rt: HostRuntime) -> Result<(), Fail> {
    let alloc = rt.alloc();
    let mut map = filled(alloc, [("user", 1, 0), ("user", 1, 0)].as_slice())?;
    assert!(rt; map.tick() == 2);
    assert_eq!(rt; take(alloc, &mut map, 1, 100)?.as_str(), "1:1 2:1 ");
    assert!(rt; map.leave(1));
    assert!(rt; map.leave(1));
    assert!(rt; map.tick() == 0);
    map.close_job(1, true);
    assert!(rt; !map.leave(1));
    assert!(rt; map.tick() == 1);
    Ok(())
}

#[test]
fn an_ended_member_of_an_open_job_is_there_and_does_not_live(rt: HostRuntime) -> Result<(), Fail> {
    let alloc = rt.alloc();
    let mut map = filled(alloc, [("user", 1, 0), ("user", 1, 0)].as_slice())?;
    assert!(rt; map.tick() == 2);
    assert_eq!(rt; take(alloc, &mut map, 1, 100)?.as_str(), "1:1 2:1 ");
    assert!(rt; map.leave(1));
    map.ascend();
    assert!(rt; map.has(1) && !map.has(3));
    assert!(rt; !map.lives(1) && map.lives(2));
    assert!(rt; map.live_count() == 1);
    Ok(())
}
