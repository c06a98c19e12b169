//! The open jobs.
ghost use Rattle.std.specs.Prelude.{◌≡◌, is_some, Some, not, filter};
ghost use Rattle.std.specs.Option.{option_copied};
ghost use Rattle.hub_model.specs.Kept.{Kept};
ghost use Rattle.hub_model.specs.Steps.{clears, closes_job, is_open_job};
ghost use Rattle.hub_model.specs.declared.job.OpenJob.{OpenJob};
ghost use Rattle.hub.specs.Parts.{job_in, members_in, with_entries, with_jobs};

use cohort_map::{CohortMap, Member};
use hub_model::OpenJob;
use subscription_table::SubscriptionTable;

/// The open job of a number.
pub(crate) fn open_job(jobs: &[OpenJob], number: u64) -> Option<&OpenJob>
    ensures { option_copied result ≡ job_in number jobs.now }
{
    for job in jobs {
        if job.number == number {
            return Some(job);
        }
    }
    None
}

/// Whether this is the number of an open job.
pub(crate) fn is_open(jobs: &[OpenJob], number: u64) -> bool
    ensures { result ≡ is_some (job_in number jobs.now) }
{
    open_job(jobs, number).is_some()
}

/// The members of an open job, and none where there is no such job.
pub(crate) fn members_of(jobs: &[OpenJob], number: u64) -> &[Member]
    ensures { result.now ≡ members_in number jobs.now }
{
    match open_job(jobs, number) {
        Some(job) => job.members.as_slice(),
        None => &[],
    }
}

/// Takes an open job out of them.
fn remove_job(jobs: &mut Vec<OpenJob>, number: u64)
    ensures { jobs.new.items ≡ filter (λ job. not (is_open_job number job)) jobs.old.items }
{
    jobs.retain(|job| job.number != number);
}

/// What is held of members is dropped where they aren't in the map any more.
fn clear_all(cohorts: &CohortMap, held: &mut SubscriptionTable, members: &[Member])
    ensures { (k : Kept) → clears members.now (with_entries cohorts.now.entries held.old k)
        ≡ with_entries cohorts.now.entries held.new k }
{
    for member in members {
        if !cohorts.has(member.sub) {
            held.remove(member.sub);
        }
    }
}

/// Closes an open job; where `due` is true its live members become due. It takes no memory.
pub(crate) fn close_job(
    cohorts: &mut CohortMap,
    held: &mut SubscriptionTable,
    jobs: &mut Vec<OpenJob>,
    number: u64,
    due: bool,
)
    ensures closes { (k : Kept) (job : OpenJob) → job_in number jobs.old.items ≡ Some job
        → closes_job number due job.members (with_jobs cohorts.old.entries held.old jobs.old.items k)
        ≡ with_jobs cohorts.new.entries held.new jobs.new.items k }
    ensures ready { cohorts.new.ready ≡ cohorts.old.ready }
{
    cohorts.close_job(number, due);
    clear_all(cohorts, held, members_of(jobs, number));
    remove_job(jobs, number);
}
