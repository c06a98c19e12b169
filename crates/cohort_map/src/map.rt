ghost use Rattle.std.specs.Prelude.{◌≡◌, ◌<◌, ◌≤◌, true, Some, [], ◌∷◌, ◌++◌, All, Contains, option_map, length, IsTrue, IfOk, OnOk, OnErr};
ghost use Rattle.std.specs.Option.{option_copied};
ghost use Rattle.std.specs.List.{AllByRecursion};
ghost use Rattle.std.specs.List.Sorted.{IsStrictlySortedBy};
ghost use Rattle.std.specs.Ordering.{nat_cmp};
ghost use Rattle.cohort_map.specs.Keys.{with_cursor};
ghost use Rattle.cohort_map.specs.Seats.{IsReadyWithin, IsReadyTo, TellsReady, ready_of};

use crate::choice::batch_of;
use crate::compact::{copy_polled, count_kept};
use crate::key::{CohortKey, PollerKey};
use crate::keys::Keys;
use crate::member::{MemberList, SubList};
use crate::order::copy_key;
use crate::polled::{Pollers, list_place, make_list, sweep};
use crate::seat::{ReadySeat, Seat, cohort_of, count_due, count_live, has_seat, is_live};
use crate::seats::Seats;
use plan_core::Binding;
use scalar_val::{NoMemory, Val, cmp, copy_val};
use std::alloc::Global;
use std::marker::Model;

/// The least number of calls from one compaction to the next.
const LEAST_CALLS: usize = 64;

/// A cohort's key with another cursor.
fn key_with(alloc: Global, key: &CohortKey, cursor: &Val) -> Result<CohortKey, NoMemory>
    ensures { IfOk result (λ other. other ≡ record { poller = key.now.poller; binding = with_cursor cursor.now key.now.binding }) }
{
    let CohortKey { poller, binding } = copy_key(alloc, key)?;
    let Binding { vars, session, .. } = binding;
    let binding = Binding {
        vars,
        session,
        cursor: copy_val(alloc, cursor)?,
    };
    Ok(CohortKey { poller, binding })
}

/// Whether a ready seat is that of a number and a cursor.
fn is_ready_to(keys: &Keys, seat: &ReadySeat, sub: u64, cursor: &Val) -> bool
    requires { seat.now.cohort < length keys.now }
    ensures { TellsReady keys.now seat.now sub cursor.now result }
{
    seat.number == sub && cmp(&keys.get(seat.cohort).binding.cursor, cursor).is_eq()
}

/// The cohort to which a ready pair moves.
fn ready_cohort(keys: &Keys, ready: &[ReadySeat], sub: u64, cursor: &Val) -> usize
    requires within { AllByRecursion (IsReadyWithin (length keys.now)) ready.now }
    requires pair { Contains (ready_of keys.now ready.now) (record { number = sub; cursor = cursor.now }) }
    ensures { IsReadyTo keys.now ready.now sub cursor.now result }
{
    for seat in ready {
        if is_ready_to(keys, seat, sub, cursor) {
            return seat.cohort;
        }
    }
    unreachable!()
}

/// The same, which is quick where the pair stands at a place.
fn ready_cohort_at(keys: &Keys, ready: &[ReadySeat], place: usize, sub: u64, cursor: &Val) -> usize
    requires within { AllByRecursion (IsReadyWithin (length keys.now)) ready.now }
    requires pair { Contains (ready_of keys.now ready.now) (record { number = sub; cursor = cursor.now }) }
    ensures { IsReadyTo keys.now ready.now sub cursor.now result }
{
    if place < ready.len() {
        let seat = &ready[place];
        if is_ready_to(keys, seat, sub, cursor) {
            return seat.cohort;
        }
    }
    ready_cohort(keys, ready, sub, cursor)
}

/// Subscriptions, grouped in pollers and cohorts. Contracts see the list of its entries in order of number, and the list of
/// ready pairs of a number and a cursor.
///
/// Subscriptions of one poller have equal operation words, roles and canonical texts, and those of one cohort also equal
/// values of variables, session values and cursors (after Hasura's "Live queries").
#[derive(Drop)]
pub struct CohortMap {
    keys: Keys,
    seats: Seats,
    pollers: Pollers,
    ready: Vec<ReadySeat>,
    /// How many moves were made since the list of ready ones was empty: the place of the next one, where they are made in
    /// the order in which they were made ready.
    moved: usize,
    /// After how many more joins, ends and ready moves the map is compacted, if that is worth its time.
    until: usize,
}

impl Model for CohortMap {
    ghost use Rattle.std.specs.Prelude.{◌≤◌, length};
    ghost use Rattle.cohort_map.specs.Entries.{Held};

    ghost Value = { Held };

    ghost use Rattle.cohort_map.specs.Seats.{held, IsSeated};

    ghost view = { λ m. held m.keys m.seats.seats m.ready.items };

    ghost use Rattle.cohort_map.specs.Polled.{ArePolled};

    ghost invariant = { λ m. IsSeated m.keys m.seats.seats m.ready.items × (length m.keys ≤ m.seats.cohorts)
        × ArePolled m.keys m.seats.seats m.pollers };
}

impl CohortMap {
    ghost use Rattle.cohort_map.specs.Entries.{entered, has, has_live, live_count, if_kept, numbers, left, entry_at, members_with, is_busy_by, ticked, due_count, has_stream, rehomed};
    ghost use Rattle.cohort_map.specs.Batches.{batch_of, opened, closed};

    /// A map without a subscription, which takes no memory.
    pub fn new(alloc: Global) -> CohortMap
        ensures entries { result.entries ≡ [] }
        ensures ready { result.ready ≡ [] }
    {
        CohortMap {
            keys: Keys::new(alloc),
            seats: Seats::new(alloc),
            pollers: Pollers::new(alloc),
            ready: Vec::new(alloc),
            moved: 0,
            until: LEAST_CALLS,
        }
    }

    /// Adds a subscription, which is live and not due. It needs a number above all earlier ones. For want of memory nothing
    /// is added.
    pub fn join(
        &mut self,
        alloc: Global,
        sub: u64,
        poller: PollerKey,
        binding: Binding,
    ) -> Result<(), NoMemory>
        requires above { All (λ e. e.number < sub) self.old.entries }
        requires apart { All (λ r. r.number < sub) self.old.ready }
        ensures ok { OnOk result (self.new.entries ≡ self.old.entries ++ entered sub poller binding ∷ []) }
        ensures err { OnErr result (self.new.entries ≡ self.old.entries) }
        ensures ready { self.new.ready ≡ self.old.ready }
    {
        self.shrink(alloc);
        self.enter(alloc, sub, poller, binding)
    }

    /// What `join` does, once empty seats and keys without seats are given back.
    fn enter(
        &mut self,
        alloc: Global,
        sub: u64,
        poller: PollerKey,
        binding: Binding,
    ) -> Result<(), NoMemory>
        requires above { All (λ e. e.number < sub) self.old.entries }
        requires apart { All (λ r. r.number < sub) self.old.ready }
        ensures ok { OnOk result (self.new.entries ≡ self.old.entries ++ entered sub poller binding ∷ []) }
        ensures err { OnErr result (self.new.entries ≡ self.old.entries) }
        ensures ready { self.new.ready ≡ self.old.ready }
    {
        self.seats.make_cohort(self.keys.len())?;
        make_list(&mut self.pollers, alloc, &poller)?;
        let cohort = self.keys.place_of(alloc, CohortKey { poller, binding })?;
        self.seats.drop_empty_end();
        let place = self.seats.as_slice().len();
        self.seats.push(Seat {
            number: sub,
            cohort,
            live: true,
            due: false,
            job: None,
        })?;
        list_place(&mut self.pollers, &self.keys.get(cohort).poller, place);
        Ok(())
    }

    /// How many places there are for seats or keys.
    fn size(&self) -> usize {
        self.seats.as_slice().len().max(self.keys.len())
    }

    /// Gives empty seats and keys without seats back, if they are more than half, no move is ready, and there is memory for
    /// a copy of the others.
    fn compact(&mut self, alloc: Global)
        ensures { self.new ≡ self.old }
    {
        if self.ready.len() > 0 {
            return;
        }
        if count_kept(self.seats.as_slice()) > self.size() / 2 {
            return;
        }
        let mut keys = Keys::new(alloc);
        let mut seats = Seats::new(alloc);
        match copy_polled(
            alloc,
            &self.keys,
            self.seats.as_slice(),
            &mut keys,
            &mut seats,
        ) {
            Ok(pollers) => {
                self.keys = keys;
                self.seats = seats;
                self.pollers = pollers;
            }
            Err(_refused) => {}
        }
    }

    /// Compacts the map after as many calls as it had seats or keys the last time, so that the work is a constant for each.
    fn shrink(&mut self, alloc: Global)
        ensures { self.new ≡ self.old }
    {
        if self.until > 0 {
            self.until -= 1;
            return;
        }
        self.compact(alloc);
        self.until = self.size().max(LEAST_CALLS);
    }

    /// Ends a subscription, which takes it out of the due ones. Its entry stays while it is a member of an open job, and ending
    /// it once more changes nothing. It is false exactly where the number isn't in the map. It takes no memory.
    pub fn leave(&mut self, sub: u64) -> bool
        ensures entries { self.new.entries ≡ left sub self.old.entries }
        ensures ready { self.new.ready ≡ self.old.ready }
        ensures answer { result ≡ has sub self.old.entries }
    {
        let cohort = cohort_of(self.seats.as_slice(), sub);
        let ended = self.end(sub);
        if let Some(cohort) = cohort {
            self.note_stale(cohort);
        }
        ended
    }

    /// What `leave` does to the entries.
    fn end(&mut self, sub: u64) -> bool
        ensures entries { self.new.entries ≡ left sub self.old.entries }
        ensures ready { self.new.ready ≡ self.old.ready }
        ensures answer { result ≡ has sub self.old.entries }
    {
        self.until = self.until.saturating_sub(1);
        self.seats.end(sub)
    }

    /// A seat of a cohort became empty, so that its place in the list of its poller is stale.
    fn note_stale(&mut self, cohort: usize)
        ensures { self.new ≡ self.old }
    {
        if cohort < self.keys.len() {
            let poller = &self.keys.get(cohort).poller;
            sweep(&mut self.pollers, &self.keys, poller, self.seats.as_slice());
        }
    }

    /// Whether a number is in the map. It takes no memory.
    pub fn has(&self, sub: u64) -> bool
        ensures { result ≡ has sub self.now.entries }
    {
        has_seat(self.seats.as_slice(), sub)
    }

    /// Whether a number is in the map and its subscription live. It takes no memory.
    pub fn lives(&self, sub: u64) -> bool
        ensures { result ≡ has_live sub self.now.entries }
    {
        is_live(self.seats.as_slice(), sub)
    }

    /// How many subscriptions are live. It takes no memory.
    pub fn live_count(&self) -> u64
        ensures { result ≡ live_count self.now.entries }
    {
        count_live(self.seats.as_slice())
    }

    /// The numbers ascend, so that none stands twice, and each entry is live or a member of an open job.
    pub fn ascend(&self)
        ensures numbers { IsStrictlySortedBy nat_cmp (numbers self.now.entries) }
        ensures kept { All (λ e. if_kept e ≡ Some e) self.now.entries }
    {
        let _ = self.seats.as_slice();
    }

    /// The values that a subscription's plan is run with, or `None` where the number isn't in the map. It takes no memory.
    pub fn binding_of(&self, sub: u64) -> Option<&Binding>
        ensures { option_copied result ≡ option_map (λ e. e.binding) (entry_at sub self.now.entries) }
    {
        match cohort_of(self.seats.as_slice(), sub) {
            Some(cohort) => Some(&self.keys.get(cohort).binding),
            None => None,
        }
    }

    /// The live numbers in the cohort of a number, in ascending order; none where the number isn't in the map.
    pub fn members(&self, alloc: Global, sub: u64) -> Result<SubList, NoMemory>
        ensures { IfOk result (λ subs. subs ≡ members_with sub self.now.entries) }
    {
        self.keys.apart();
        match cohort_of(self.seats.as_slice(), sub) {
            Some(cohort) => self.seats.live_in(alloc, cohort),
            None => Ok(SubList::new(alloc)),
        }
    }

    /// Whether the cohort of a number has a member, live or ended, in an open job; false where the number isn't in the map.
    /// It takes no memory.
    pub fn busy(&self, sub: u64) -> bool
        ensures { result ≡ is_busy_by self.now.entries (entry_at sub self.now.entries) }
    {
        self.keys.apart();
        match cohort_of(self.seats.as_slice(), sub) {
            Some(cohort) => self.seats.is_busy(cohort),
            None => false,
        }
    }

    /// Makes the live subscriptions due whose cohorts have no member, live or ended, in an open job, and no others. It gives
    /// their number, and takes no memory.
    pub fn tick(&mut self) -> u64
        ensures entries { self.new.entries ≡ ticked self.old.entries }
        ensures ready { self.new.ready ≡ self.old.ready }
        ensures answer { result ≡ due_count self.new.entries }
    {
        self.keys.apart();
        self.seats.tick()
    }

    /// How many subscriptions are due. It takes no memory.
    pub fn due(&self) -> u64
        ensures { result ≡ due_count self.now.entries }
    {
        count_due(self.seats.as_slice())
    }

    /// The members of the next job: the poller is that of the least due number, its cohorts with a due member stand in the
    /// order of their least due numbers, and the first `limit` of them are taken. The members are all live subscriptions of
    /// these, in ascending order, each with the place of its cohort. It is empty exactly where nobody is due.
    pub fn batch(&self, alloc: Global, limit: u32) -> Result<MemberList, NoMemory>
        requires { 1 ≤ limit }
        ensures { IfOk result (λ members. members ≡ batch_of limit self.now.entries) }
    {
        self.keys.apart();
        batch_of(alloc, &self.keys, &self.seats, &self.pollers, limit)
    }

    /// Marks the members of a job with it; they are no longer due. It can't be refused memory: it lists the members where
    /// there is some.
    pub fn open_job(&mut self, job: u64, members: &MemberList)
        ensures entries { self.new.entries ≡ opened job members.now self.old.entries }
        ensures ready { self.new.ready ≡ self.old.ready }
    {
        self.seats.open(job, members.as_slice())
    }

    /// Takes the marks of a job away. Its live members become due where `due` is true, and its ended ones are dropped. It takes
    /// no memory.
    pub fn close_job(&mut self, job: u64, due: bool)
        ensures entries { self.new.entries ≡ closed job due self.old.entries }
        ensures ready { self.new.ready ≡ self.old.ready }
    {
        self.seats.close(job, due)
    }

    /// Makes it ready that a stream is moved to a cursor, which changes no entry. It needs the number of a stream of the map:
    /// of an entry whose cursor isn't null. For want of memory nothing is added.
    pub fn ready(&mut self, alloc: Global, sub: u64, cursor: &Val) -> Result<(), NoMemory>
        requires { IsTrue (has_stream sub self.old.entries) }
        ensures entries { self.new.entries ≡ self.old.entries }
        ensures ok { OnOk result (self.new.ready ≡ self.old.ready ++ record { number = sub; cursor = cursor.now } ∷ []) }
        ensures err { OnErr result (self.new.ready ≡ self.old.ready) }
    {
        self.shrink(alloc);
        self.prepare(alloc, sub, cursor)
    }

    /// What `ready` does, once empty seats and keys without seats are given back.
    fn prepare(&mut self, alloc: Global, sub: u64, cursor: &Val) -> Result<(), NoMemory>
        requires { IsTrue (has_stream sub self.old.entries) }
        ensures entries { self.new.entries ≡ self.old.entries }
        ensures ok { OnOk result (self.new.ready ≡ self.old.ready ++ record { number = sub; cursor = cursor.now } ∷ []) }
        ensures err { OnErr result (self.new.ready ≡ self.old.ready) }
    {
        self.seats.make_cohort(self.keys.len())?;
        let before = match cohort_of(self.seats.as_slice(), sub) {
            Some(cohort) => self.keys.get(cohort),
            None => unreachable!(),
        };
        let key = key_with(alloc, before, cursor)?;
        let cohort = self.keys.place_of(alloc, key)?;
        self.ready.push(ReadySeat {
            number: sub,
            cohort,
        })?;
        Ok(())
    }

    /// Moves a stream to a cursor; all other entries stay. It needs a ready pair whose number is in the map. It can't be
    /// refused memory: it lists the stream in its new cohort where there is some.
    pub fn rehome(&mut self, sub: u64, cursor: &Val)
        requires pair { Contains self.old.ready (record { number = sub; cursor = cursor.now }) }
        requires there { IsTrue (has sub self.old.entries) }
        ensures entries { self.new.entries ≡ rehomed sub cursor.now self.old.entries }
        ensures ready { self.new.ready ≡ self.old.ready }
    {
        let cohort = ready_cohort_at(&self.keys, &self.ready, self.moved, sub, cursor);
        self.moved = self.moved.saturating_add(1);
        self.seats.move_to(sub, cohort);
    }

    /// Empties the list of ready pairs. It takes no memory.
    pub fn unready(&mut self)
        ensures entries { self.new.entries ≡ self.old.entries }
        ensures ready { self.new.ready ≡ [] }
    {
        self.ready.clear();
        self.moved = 0;
    }
}
