ghost use Rattle.std.specs.Prelude.{◌≡◌, ◌+◌, ◌*◌, ◌^◌, ◌<◌, ◌≤◌, [], List, map, IfOk, OnOk};
ghost use Rattle.machine.specs.State.{Event, Take, Taken};
ghost use Rattle.machine.specs.Run.{run};
ghost use Rattle.machine.specs.Transcript as transcript;
ghost use Rattle.hub_model.specs.Kept.{member_of};
ghost use Rattle.hub_model.specs.Jobs.{job_of};
ghost use Rattle.hub_model.specs.Stands.{StandsFor};
ghost use Rattle.script_text.specs.Told.{Tells};
ghost use Rattle.subs_run.specs.Events.{Reaches, TookOne};

use crate::jobs::publish_job;
use cohort_map::Member;
use hub::{Hub, Job};
use scalar_val::{NoMemory, Steps};
use script_text::{write_job, write_tick};
use std::alloc::Global;
use std::sync::ledger::Ledger;

/// A tick, and then takes and publications for as long as somebody is due.
pub(crate) fn poll<L: Ledger>(
    hub: &mut Hub,
    alloc: Global,
    out: &mut Vec<u8>,
    steps: &mut Steps<L>,
) -> Result<(), NoMemory>
    requires stands { (h : List Event) × StandsFor hub.old h }
    requires few { hub.old.events + 1 + 2 * hub.old.subscribed < 2 ^ 62 }
    ensures reaches { OnOk result ((h : List Event) → StandsFor hub.old h →
        Reaches hub.old hub.new h (transcript.poll hub.old.meta (run hub.old.meta h)) out.old.items out.new.items) }
    ensures events { OnOk result (hub.new.events ≤ hub.old.events + 1 + 2 * hub.old.subscribed) }
{
    let due = hub.tick();
    write_tick(out, due)?;
    publish_due(hub, alloc, due, out, steps)
}

/// So many takes and publications, but none once nobody is due.
fn publish_due<L: Ledger>(
    hub: &mut Hub,
    alloc: Global,
    due: u64,
    out: &mut Vec<u8>,
    steps: &mut Steps<L>,
) -> Result<(), NoMemory>
    requires stands { (h : List Event) × StandsFor hub.old h }
    requires few { hub.old.events + 2 * due < 2 ^ 62 }
    ensures reaches { OnOk result ((h : List Event) → StandsFor hub.old h →
        Reaches hub.old hub.new h (transcript.publish_due hub.old.meta due (run hub.old.meta h)
        (run hub.old.meta h).due) out.old.items out.new.items) }
    ensures events { OnOk result (hub.new.events ≤ hub.old.events + 2 * due) }
{
    for _round in 0..due {
        if !take_and_publish(hub, alloc, out, steps)? {
            return Ok(());
        }
    }
    Ok(())
}

/// A take, and the publication of the taken job: whether somebody was due.
fn take_and_publish<L: Ledger>(
    hub: &mut Hub,
    alloc: Global,
    out: &mut Vec<u8>,
    steps: &mut Steps<L>,
) -> Result<bool, NoMemory>
    requires stands { (h : List Event) × StandsFor hub.old h }
    requires few { hub.old.events + 2 < 2 ^ 62 }
    ensures took { IfOk result (λ some. (h : List Event) → StandsFor hub.old h →
        TookOne some hub.old hub.new h out.old.items out.new.items) }
    ensures events { OnOk result (hub.new.events ≤ hub.old.events + 2) }
{
    let Some(job) = hub.take(alloc)? else {
        return Ok(false);
    };
    write_taken(&job, out)?;
    publish_job(hub, alloc, &job, out, steps)?;
    Ok(true)
}

pub(crate) fn write_taken(job: &Job, out: &mut Vec<u8>) -> Result<(), NoMemory>
    ensures { OnOk result (Tells Take (Taken (job_of job.now)) [] [] out.old.items out.new.items) }
{
    let members = job.members.len() as u64;
    write_job(
        out,
        job.number,
        job.version,
        cohorts(job.members.as_slice()),
        members,
    )
}

/// How many cohorts members have: these have the places from 1 on.
fn cohorts(members: &[Member]) -> u64
    ensures { result ≡ transcript.cohorts (map member_of members.now) }
{
    let mut most = 0;
    for member in members {
        most = most.max(u64::from(member.id));
    }
    most
}
