ghost use Rattle.std.specs.Prelude.{◌≡◌, None, IfOk};

use crate::work::{Spawner, Work};
use crossbeam_channel::{Receiver, Sender};
use scalar_val::NoMemory;
use std::alloc::Global;
use std::sync::Wait;
use std::thread;
use std::thread::Threads;

/// Runs each work in a thread of its own, which nobody joins. It doesn't tell the works.
///
/// A launcher, which is a thread too, takes each work from a channel, starts the work's thread and answers over another
/// channel whether it could. It ends once the spawner is dropped. That a work that was started is run, and beside its
/// caller, is trusted and not proved.
#[derive(Drop)]
pub struct ThreadSpawner<W, R> {
    rt: R,
    works: Sender<W>,
    answers: Receiver<bool>,
    faults: u64,
}

impl<W: Work + 'static, R: Threads + Wait + Copy + Send + 'static> ThreadSpawner<W, R>
where
    W::Out: Drop + Send + 'static,
{
    /// A spawner whose launcher runs. Besides for want of memory it is refused where the system makes no thread.
    pub fn new(alloc: Global, rt: R) -> Result<ThreadSpawner<W, R>, NoMemory>
        ensures { IfOk result (λ spawner. ⟦<ThreadSpawner<W, R> as Spawner<W>>⟧.faults spawner ≡ 0) }
    {
        let (works, to_start) = crossbeam_channel::bounded(alloc, 1)?;
        let (started, answers) = crossbeam_channel::bounded(alloc, 1)?;
        if thread::spawn(&rt, move || launch(&rt, to_start, started)).is_err() {
            return Err(NoMemory);
        }
        Ok(ThreadSpawner {
            rt,
            works,
            answers,
            faults: 0,
        })
    }
}

impl<W: Work + 'static, R: Wait> ThreadSpawner<W, R> {
    /// How often it has failed.
    pub fn faults(&self) -> u64
        ensures { ⟦<ThreadSpawner<W, R> as Spawner<W>>⟧.faults self.now ≡ result }
    {
        self.faults
    }
}

impl<W: Work + 'static, R: Wait> Spawner<W> for ThreadSpawner<W, R> {
    ghost started = { λ _. None };

    ghost faults = { λ spawner. spawner.faults };

    fn start(&mut self, work: W) -> bool {
        if self.works.send(&self.rt, work).is_ok() && self.answers.recv(&self.rt) == Ok(true) {
            return true;
        }
        self.faults = self.faults.saturating_add(1);
        false
    }
}

/// Starts a thread for each work that comes and answers whether it could, until the spawner is gone.
fn launch<W: Work + 'static, R: Threads + Wait + Copy + Send + 'static>(
    rt: &R,
    works: Receiver<W>,
    started: Sender<bool>,
)
where
    W::Out: Drop + Send + 'static,
{
    for work in works.iter(rt) {
        if started.send(rt, start_thread(rt, work)).is_err() {
            return;
        }
    }
}

/// Starts a thread that runs the work and drops its answer, and says whether the system made one.
fn start_thread<W: Work + 'static, R: Threads + Wait + Copy + Send + 'static>(
    rt: &R,
    work: W,
) -> bool
where
    W::Out: Drop + Send + 'static,
{
    let theirs = *rt;
    thread::spawn(rt, move || drop(work.run(&theirs))).is_ok()
}
