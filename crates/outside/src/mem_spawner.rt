ghost use Rattle.std.specs.Prelude.{◌≡◌, ◌≤◌, ◌<◌, [], Some, IfOk, vec_len, vec_capacity};

use crate::schedule::Schedule;
use crate::work::{Spawner, Work};
use scalar_val::NoMemory;
use std::alloc::Global;

/// A spawner in memory, which keeps the works that it is said to have started, and runs none. It tells them.
#[derive(Debug, Drop)]
pub struct MemSpawner<W> {
    started: Vec<W>,
    room: usize,
    schedule: Schedule,
    ghost within: { vec_len started ≤ room },
    ghost held: { room ≤ vec_capacity started },
}

impl<W: Work + 'static> MemSpawner<W> {
    /// A spawner with room for so many works, for which it takes the memory now. The calls of `start` whose numbers
    /// stand in `failing` fail, and so does each call past its room; the first call has number 1.
    pub fn new(alloc: Global, room: usize, failing: Vec<u64>) -> Result<MemSpawner<W>, NoMemory>
        ensures started { IfOk result (λ s. ⟦<MemSpawner<W> as Spawner<W>>⟧.started s ≡ Some []) }
        ensures faults { IfOk result (λ s. ⟦<MemSpawner<W> as Spawner<W>>⟧.faults s ≡ 0) }
    {
        let started = Vec::with_capacity(alloc, room)?;
        Ok(MemSpawner {
            started,
            room,
            schedule: Schedule::new(failing),
        })
    }

    /// The works that it started.
    pub fn started(&self) -> &[W]
        ensures { ⟦<MemSpawner<W> as Spawner<W>>⟧.started self.now ≡ Some result.now }
    {
        self.started.as_slice()
    }

    /// The works that it started, to be run by the caller.
    pub fn into_started(self) -> Vec<W>
        ensures { ⟦<MemSpawner<W> as Spawner<W>>⟧.started self ≡ Some result.items }
    {
        let MemSpawner {
            started,
            room: _,
            schedule: _,
        } = self;
        started
    }

    /// How often it has failed.
    pub fn faults(&self) -> u64
        ensures { ⟦<MemSpawner<W> as Spawner<W>>⟧.faults self.now ≡ result }
    {
        self.schedule.faults
    }
}

impl<W: Work + 'static> Spawner<W> for MemSpawner<W> {
    ghost started = { λ spawner. Some spawner.started.items };

    ghost faults = { λ spawner. spawner.schedule.faults };

    fn start(&mut self, work: W) -> bool {
        if self.schedule.next_fails() {
            return false;
        }
        if self.started.len() == self.room {
            self.schedule.count_fault();
            return false;
        }
        let Ok(()) = self.started.push(work) else {
            unreachable!()
        };
        true
    }
}
