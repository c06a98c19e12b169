ghost use Rattle.std.specs.Prelude.{◌≡◌, ◌++◌, [], ◌∷◌, false, IfOk};
ghost use Rattle.history_lock.specs.History.{entry, own};

use crate::{HistoryLock, Made, Pass, Spent, Stands};
use std::alloc::{AllocError, Global};
use std::sync::Wait;
use std::test::*;
use std::thread;
use std::thread::{Promise, Threads};
use std::time::{Clock, Duration};

// A state that counts its turns. Of an event it is known only that it was one.
#[derive(Drop)]
struct Count {
    turns: u64,
}

impl Stands for Count {
    type Event = ();

    type Basis = ();

    ghost use Rattle.std.specs.Prelude.{◌≡◌, length};

    ghost stands = { λ count events. count.turns ≡ length events };

    ghost basis = { λ _. tt };

    ghost some_basis = { tt };

    fn count(&self) -> u64 {
        self.turns
    }
}

struct OneTurn;

impl Made<Count> for OneTurn {
    ghost event = { tt };
}

fn take_turn<R: Wait>(
    rt: &R,
    lock: &HistoryLock<Count>,
    pass: &mut Pass<Count>,
) -> Result<u64, Spent>
    requires { (pass.old.lock ≡ lock.now) × (pass.old.has_turn ≡ false) }
    ensures same { pass.new ≡ record pass.old { seen = pass.new.seen } }
    ensures own { IfOk result (λ _.
        own pass.old.number pass.new.seen ≡ own pass.old.number pass.old.seen ++ entry pass.old.number tt ∷ []) }
{
    let mut turn = lock.turn(rt, pass)?;
    let before = turn.state().turns;
    turn.state().turns += 1;
    lock.give::<OneTurn>(pass, turn);
    Ok(before)
}

fn take_turns<R: Wait>(
    rt: &R,
    lock: &HistoryLock<Count>,
    mut pass: Pass<Count>,
    times: u32,
) -> Pass<Count>
    requires { (pass.lock ≡ lock.now) × (pass.has_turn ≡ false) }
    ensures { (result.lock ≡ lock.now) × (result.has_turn ≡ false) }
{
    for _ in 0..times {
        let _before = take_turn(rt, lock, &mut pass);
    }
    pass
}

// A thread gives back a pass of this lock that holds no turn.
#[derive(Clone, Copy)]
struct OfLock<'a>(&'a HistoryLock<Count>);

impl<'a> Promise<Pass<Count>> for OfLock<'a> {
    ghost kept_by = { λ of pass. (pass.lock ≡ of.0.now) × (pass.has_turn ≡ false) };
}

// Two threads, of which the second has a pass that was split off. The passes are joined.
fn in_two_threads<R: Threads + Wait + Sync>(
    rt: &R,
    lock: &HistoryLock<Count>,
    first: Pass<Count>,
    second: Pass<Count>,
    times: u32,
) -> Result<Pass<Count>, AllocError>
    requires first { (first.lock ≡ lock.now) × (first.has_turn ≡ false) }
    requires second { (second.lock ≡ lock.now) × (second.has_turn ≡ false) }
    ensures { IfOk result (λ pass. (pass.lock ≡ lock.now) × (pass.has_turn ≡ false)) }
{
    thread::scope(
        thread::scope_env(),
        rt,
        |scope| -> Result<Pass<Count>, AllocError>
            requires first { (first.lock ≡ lock.now) × (first.has_turn ≡ false) }
            requires second { (second.lock ≡ lock.now) × (second.has_turn ≡ false) }
            ensures { IfOk result (λ pass. (pass.lock ≡ lock.entry.now) × (pass.has_turn ≡ false)) }
        {
            let first = scope.spawn_with(OfLock(lock), move || take_turns(rt, lock, first, times))?;
            let second = scope.spawn_with(
                OfLock(lock),
                move || take_turns(rt, lock, second, times),
            )?;
            let mut pass = first.join(rt);
            lock.join(&mut pass, second.join(rt));
            Ok(pass)
        },
    )
}

#[test]
fn two_threads_of_a_thousand_turns_make_one_history(rt: HostRuntime) -> Result<(), Fail> {
    let (lock, mut first) = HistoryLock::new(rt.alloc(), Count { turns: 0 })?;
    let second = lock.split(&mut first)?;
    let mut pass = in_two_threads(&rt, &lock, first, second, 1000)?;
    assert_eq!(&rt; take_turn(&rt, &lock, &mut pass), Ok(2000));
    Ok(())
}

// A thread's part: some turns by a pass of its own, each of which it holds for so long that others wait asleep.
#[derive(Drop)]
struct LongTurns<'a> {
    lock: &'a HistoryLock<Count>,
    pass: Pass<Count>,
    ghost ours: { (pass.lock ≡ lock.now) × (pass.has_turn ≡ false) },
}

impl<'a> LongTurns<'a> {
    fn run<R: Wait + Clock>(self, rt: &R) -> Result<(), Spent> {
        let LongTurns { lock, mut pass } = self;
        for _ in 0..8 {
            hold_turn(rt, lock, &mut pass)?;
        }
        Ok(())
    }
}

fn hold_turn<R: Wait + Clock>(
    rt: &R,
    lock: &HistoryLock<Count>,
    pass: &mut Pass<Count>,
) -> Result<(), Spent>
    requires { (pass.old.lock ≡ lock.now) × (pass.old.has_turn ≡ false) }
    ensures { pass.new ≡ record pass.old { seen = pass.new.seen } }
{
    let mut turn = lock.turn(rt, pass)?;
    thread::sleep(rt, Duration::from_micros(100));
    turn.state().turns += 1;
    lock.give::<OneTurn>(pass, turn);
    Ok(())
}

fn long_turns<'a>(
    alloc: Global,
    lock: &'a HistoryLock<Count>,
    pass: &mut Pass<Count>,
    threads: u64,
) -> Result<Vec<LongTurns<'a>>, Fail>
    requires { (pass.old.lock ≡ lock.now) × (pass.old.has_turn ≡ false) }
    ensures { (pass.new.lock ≡ pass.old.lock) × (pass.new.has_turn ≡ false) }
{
    let mut works = Vec::new(alloc);
    for _ in 0..threads {
        let pass = lock.split(pass)?;
        works.push(LongTurns { lock, pass })?;
    }
    Ok(works)
}

// Where one of them slept on while its ticket is served, the test would not end.
#[test]
fn all_of_64_threads_come_to_their_turns(rt: HostRuntime) -> Result<(), Fail> {
    let (lock, mut pass) = HistoryLock::new(rt.alloc(), Count { turns: 0 })?;
    let works = long_turns(rt.alloc(), &lock, &mut pass, 64)?;
    for done in thread::map_vec(&rt, works, &|work: LongTurns| work.run(&rt))? {
        assert_eq!(&rt; done, Ok(()));
    }
    assert_eq!(&rt; take_turn(&rt, &lock, &mut pass), Ok(512));
    Ok(())
}

fn is_shared<T: Sync>(_: &T) {}

fn is_sent<T: Send>(sent: T) -> T
    ensures { result ≡ sent }
{
    sent
}

// Any lock is shared and sent, and any pass is sent, where the state may be sent.
fn crosses_threads<S: Stands + Send>(
    lock: HistoryLock<S>,
    pass: Pass<S>,
) -> (HistoryLock<S>, Pass<S>)
    ensures { (result.0 ≡ lock) × (result.1 ≡ pass) }
{
    is_shared(&lock);
    (is_sent(lock), is_sent(pass))
}

#[test]
fn a_lock_and_a_pass_cross_threads(rt: HostRuntime) -> Result<(), Fail> {
    let (lock, pass) = HistoryLock::new(rt.alloc(), Count { turns: 0 })?;
    let (lock, mut pass) = crosses_threads(lock, pass);
    assert_eq!(&rt; take_turn(&rt, &lock, &mut pass), Ok(0));
    assert_eq!(&rt; take_turn(&rt, &lock, &mut pass), Ok(1));
    Ok(())
}
