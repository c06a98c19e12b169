//! One poll.
ghost use Rattle.std.specs.Prelude.{◌≡◌, ◌+◌, ◌≤◌, false, length, List};
ghost use Rattle.history_lock.specs.History.{events};
ghost use Rattle.hub_model.specs.Jobs.{AnswersOf};
ghost use Rattle.subs_engine.specs.Calls.{Call, Did};
ghost use Rattle.plan_model.specs.Reads.{reads};
ghost use Rattle.subs_engine.specs.Jobs.{IsJob};
ghost use Rattle.subs_engine.specs.Polls.{Abandons, Finishes, PollsOnce};

use crate::engine::{Engine, Pass, PublishFault, TakeFault};
use crate::gate::Gate;
use hub::{Answers, Event, Job, PublishReply};
use scalar_val::{NoMemory, Steps};
use std::alloc::Global;
use std::sync::Wait;
use std::sync::ledger::Ledger;

/// What a poll did. The number is the job's.
#[derive(Clone, Copy, Debug, PartialEq, Eq)]
pub enum Polled {
    /// Nobody was due.
    Nothing,
    /// The job was published.
    Published(u64),
    /// The job wasn't open any more.
    NotOpen(u64),
}

impl Engine {
    // Abandons a job, if there are turns.
    fn abandon<R: Wait>(&self, rt: &R, alloc: Global, pass: &mut Pass, number: u64)
        requires { (pass.old.lock ≡ self.now) × (pass.old.has_turn ≡ false) }
        ensures { (made : List Call) × Did pass.old pass.new made × Abandons (length pass.new.seen) number made }
    {
        let _reply = self.call(rt, alloc, pass, Event::Abandon(number));
    }

    // Publishes a job's answers, or abandons it where there is no memory for that.
    fn finish<R: Wait>(
        &self,
        rt: &R,
        alloc: Global,
        pass: &mut Pass,
        answers: Answers,
    ) -> Result<Polled, TakeFault>
        requires pass { (pass.old.lock ≡ self.now) × (pass.old.has_turn ≡ false) }
        requires answers { AnswersOf pass.old.basis answers (events pass.old.seen) }
        ensures { (made : List Call) × Did pass.old pass.new made
            × Finishes (length pass.new.seen) answers.number result made }
    {
        let number = answers.number();
        match self.publish(rt, alloc, pass, answers) {
            Ok(PublishReply::Published(_)) => Ok(Polled::Published(number)),
            Ok(PublishReply::NotOpen) => Ok(Polled::NotOpen(number)),
            Err(PublishFault::Spent(_)) => Err(TakeFault::Spent),
            Err(PublishFault::NoMemory(_)) => {
                self.abandon(rt, alloc, pass, number);
                Err(TakeFault::NoMemory)
            }
        }
    }

    // Evaluates a job while no turn is held, and publishes the outcomes.
    fn evaluate<R: Wait, G: Gate, L: Ledger>(
        &self,
        rt: &R,
        alloc: Global,
        pass: &mut Pass,
        gate: &G,
        job: &Job,
        steps: &mut Steps<L>,
    ) -> Result<Polled, TakeFault>
        requires pass { (pass.old.lock ≡ self.now) × (pass.old.has_turn ≡ false) }
        requires job { IsJob pass.old.basis job.now (events pass.old.seen) }
        ensures did { (made : List Call) × Did pass.old pass.new made
            × Finishes (length pass.new.seen) job.now.number result made }
        ensures steps { steps.new ≤ steps.old + reads job.now.plan job.now.snapshot.tables }
    {
        match gate.batch(rt, alloc, job, steps) {
            Ok(outcomes) => self.finish(rt, alloc, pass, Answers::of(job, outcomes)),
            Err(NoMemory) => {
                self.abandon(rt, alloc, pass, job.number);
                Err(TakeFault::NoMemory)
            }
        }
    }

    /// Takes a job, has the gate evaluate it while no turn is held, and publishes the outcomes. Where evaluation or
    /// publication finds no memory it abandons the job. The replies are those of the pass's own entries.
    ///
    /// `Nothing`: nobody was due. `Spent`: all turns are taken; the pass has seen 2^62 entries. `NoMemory`: memory was
    /// refused.
    pub fn poll_once<R: Wait, G: Gate, L: Ledger>(
        &self,
        rt: &R,
        alloc: Global,
        pass: &mut Pass,
        gate: &G,
        steps: &mut Steps<L>,
    ) -> Result<Polled, TakeFault>
        requires { (pass.old.lock ≡ self.now) × (pass.old.has_turn ≡ false) }
        ensures { PollsOnce pass.old pass.new result steps.old steps.new }
    {
        match self.take(rt, alloc, pass)? {
            Some(job) => self.evaluate(rt, alloc, pass, gate, &job, steps),
            None => Ok(Polled::Nothing),
        }
    }
}
