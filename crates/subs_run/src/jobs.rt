//! The lines that take jobs, publish and abandon them.
ghost use Rattle.std.specs.Prelude.{◌≡◌, ◌+◌, ◌^◌, ◌<◌, ◌≤◌, ◌==◌, List, OnOk};
ghost use Rattle.std.specs.List.{position};
ghost use Rattle.machine.specs.State as state;
ghost use Rattle.machine.specs.State.{Event};
ghost use Rattle.machine.specs.Run.{run};
ghost use Rattle.machine.specs.Script.{serves};
ghost use Rattle.hub_model.specs.declared.job.Job.{Job};
ghost use Rattle.hub_model.specs.Jobs.{Fits, JobOf};
ghost use Rattle.hub_model.specs.Stands.{StandsFor};
ghost use Rattle.subs_run.specs.Events.{HasClosed, LineRan, Removes, RunsOn};

use crate::evaluation::evaluate;
use crate::line_result::{LineResult, went};
use crate::poll::write_taken;
use crate::runner::Runner;
use hub::{Answers, Hub, Job, PublishReply};
use scalar_val::{NoMemory, Steps};
use script_text::{write_abandoned, write_none, write_not_open, write_published};
use std::alloc::Global;
use std::sync::ledger::Ledger;

pub(crate) fn run_take(runner: &mut Runner, alloc: Global, out: &mut Vec<u8>) -> LineResult
    requires { runner.old.hub.events < 2 ^ 62 }
    ensures { (h : List Event) → RunsOn runner.old.hub runner.old.jobs.items h →
        LineRan result (serves runner.old.hub.meta (run runner.old.hub.meta h) state.Take) runner.old.hub
        runner.new.hub runner.new.jobs.items out.old.items out.new.items }
{
    went(take(runner, alloc, out))
}

/// Takes a job, and keeps it.
fn take(runner: &mut Runner, alloc: Global, out: &mut Vec<u8>) -> Result<(), NoMemory>
    requires { runner.old.hub.events < 2 ^ 62 }
    ensures { OnOk result ((h : List Event) → RunsOn runner.old.hub runner.old.jobs.items h →
        LineRan LineResult.Went (serves runner.old.hub.meta (run runner.old.hub.meta h) state.Take) runner.old.hub
        runner.new.hub runner.new.jobs.items out.old.items out.new.items) }
{
    let Some(job) = runner.hub.take(alloc)? else {
        return write_none(out);
    };
    write_taken(&job, out)?;
    runner.jobs.push(job)?;
    Ok(())
}

/// The place of the job of a number.
fn place_of(jobs: &[Job], number: u64) -> Option<usize>
    ensures { result ≡ position (λ (job : Job). job.number == number) jobs.now }
{
    jobs.iter().position(|job| job.number == number)
}

/// Takes the job of a number out of those that are kept.
fn remove_job(jobs: &mut Vec<Job>, number: u64) -> Option<Job>
    ensures { Removes jobs.old.items jobs.new.items number result }
{
    match place_of(jobs.as_slice(), number) {
        Some(place) => Some(jobs.remove(place)),
        None => None,
    }
}

pub(crate) fn run_publish<L: Ledger>(
    runner: &mut Runner,
    alloc: Global,
    number: u64,
    out: &mut Vec<u8>,
    steps: &mut Steps<L>,
) -> LineResult
    requires stands { (h : List Event) × RunsOn runner.old.hub runner.old.jobs.items h }
    requires few { runner.old.hub.events < 2 ^ 62 }
    ensures { (h : List Event) → RunsOn runner.old.hub runner.old.jobs.items h →
        LineRan result (serves runner.old.hub.meta (run runner.old.hub.meta h) (state.Publish number)) runner.old.hub
        runner.new.hub runner.new.jobs.items out.old.items out.new.items }
{
    match remove_job(&mut runner.jobs, number) {
        Some(job) => went(publish_job(&mut runner.hub, alloc, &job, out, steps)),
        None => went(write_not_open(out, number)),
    }
}

/// Evaluates a job and publishes its answers.
pub(crate) fn publish_job<L: Ledger>(
    hub: &mut Hub,
    alloc: Global,
    job: &Job,
    out: &mut Vec<u8>,
    steps: &mut Steps<L>,
) -> Result<(), NoMemory>
    requires few { hub.old.events < 2 ^ 62 }
    requires job { (h : List Event) × StandsFor hub.old h × JobOf hub.old.meta job.now h }
    requires fits { Fits job.now }
    ensures closed { OnOk result ((h : List Event) → StandsFor hub.old h → JobOf hub.old.meta job.now h →
        HasClosed hub.old hub.new h (state.Publish job.now.number) job.now.number out.old.items out.new.items) }
    ensures events { OnOk result (hub.new.events ≤ hub.old.events + 1) }
{
    let outcomes = evaluate(alloc, job, steps)?;
    let answers = Answers::of(job, outcomes);
    match hub.publish(alloc, answers) {
        Ok(PublishReply::Published(queued)) => {
            write_published(out, job.number, job.version, &queued)
        }
        Ok(PublishReply::NotOpen) => write_not_open(out, job.number),
        Err(_) => Err(NoMemory),
    }
}

pub(crate) fn run_abandon(runner: &mut Runner, number: u64, out: &mut Vec<u8>) -> LineResult
    requires { runner.old.hub.events < 2 ^ 62 }
    ensures { (h : List Event) → RunsOn runner.old.hub runner.old.jobs.items h →
        LineRan result (serves runner.old.hub.meta (run runner.old.hub.meta h) (state.Abandon number)) runner.old.hub
        runner.new.hub runner.new.jobs.items out.old.items out.new.items }
{
    let removed = remove_job(&mut runner.jobs, number);
    drop(removed);
    if runner.hub.abandon(number) {
        went(write_abandoned(out, number))
    } else {
        went(write_not_open(out, number))
    }
}
