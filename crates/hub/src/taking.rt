//! The taking of jobs.
ghost use Rattle.std.specs.Prelude.{◌≡◌, ◌^◌, ◌<◌, ◌+◌, ◌-◌, ◌++◌, ◌∷◌, [], true, is_some, Some, length, slice_set};
ghost use Rattle.std.specs.Prelude.{IfOk, OnErr};
ghost use Rattle.std.specs.Option.{option_map};
ghost use Rattle.std.specs.List.{AllByRecursion};
ghost use Rattle.plan_model.specs.declared.filter.Binding.{Binding};
ghost use Rattle.cohort_map.specs.Entries.{entry_at, has};
ghost use Rattle.subscription_table.specs.declared.held.Held.{Held};
ghost use Rattle.subscription_table.specs.Kept.{held_at};
ghost use Rattle.hub_model.specs.Replies.{TakeAnswers};
ghost use Rattle.hub.specs.Taking.{AreBindings, ArePlaces, AreSpeakers, HasEntry, IsJobFor, most};

use crate::center::Hub;
use admission_laws::{plans, pollers};
use batch_rel::Relation;
use cohort_map::{CohortMap, Member, MemberList};
use hub_model::{Job, OpenJob};
use plan_core::copy_binding;
use result_laws::results;
use scalar_val::{List, NoMemory};
use std::alloc::Global;
use subscription_table::{SharedPlan, SubscriptionTable};

/// An equal list.
fn copy_members(alloc: Global, members: &[Member]) -> Result<MemberList, NoMemory>
    ensures { IfOk result (λ copy. copy ≡ members.now) }
{
    Ok(List::from_vec(Vec::from_slice(alloc, members)?))
}

/// The greatest result id.
fn most_id(members: &[Member]) -> u32
    ensures { result ≡ most members.now }
{
    let mut most = 0;
    for member in members {
        if member.id > most {
            most = member.id;
        }
    }
    most
}

/// Puts a member's number at the place of its result id, where there is one.
fn speak(subs: &mut Vec<u64>, member: &Member)
    ensures { subs.new.items ≡ slice_set subs.old.items (member.now.id - 1) member.now.sub }
{
    let place = (member.id as usize).saturating_sub(1);
    if place < subs.len() {
        subs[place] = member.sub;
    }
}

/// For each result id a member that has it; `first` stands where none has.
fn speakers(alloc: Global, members: &[Member], first: u64) -> Result<Vec<u64>, NoMemory>
    requires { ArePlaces members.now }
    ensures speakers { IfOk result (λ subs. AreSpeakers members.now first subs.items) }
    ensures few { IfOk result (λ subs. length subs.items < 4294967296) }
{
    let count = most_id(members) as usize;
    let mut subs = vec![in alloc; first; count]?;
    for member in members {
        speak(&mut subs, member);
    }
    Ok(subs)
}

/// Adds the binding of a subscription.
fn add_binding(
    alloc: Global,
    relation: &mut Relation,
    cohorts: &CohortMap,
    sub: u64,
) -> Result<(), NoMemory>
    requires entry { has sub cohorts.now.entries ≡ true }
    requires room { length relation.old < 4294967295 }
    ensures { IfOk result (λ _. (b : Binding) → option_map (λ e. e.binding) (entry_at sub cohorts.now.entries) ≡ Some b
        → relation.new ≡ relation.old ++ record { id = length relation.old + 1; binding = b } ∷ []) }
{
    let Some(binding) = cohorts.binding_of(sub) else {
        unreachable!()
    };
    match relation.push(copy_binding(alloc, binding)?) {
        Ok(_) => Ok(()),
        Err(_) => Err(NoMemory),
    }
}

/// The binding of each cohort of a batch, in the order of their result ids.
fn relation_of(
    alloc: Global,
    cohorts: &CohortMap,
    members: &[Member],
    first: u64,
) -> Result<Relation, NoMemory>
    requires places { ArePlaces members.now }
    requires entries { AllByRecursion (HasEntry cohorts.now.entries) members.now }
    requires first { has first cohorts.now.entries ≡ true }
    ensures { IfOk result (λ relation. AreBindings cohorts.now.entries members.now first relation) }
{
    let subs = speakers(alloc, members, first)?;
    let mut relation = Relation::new(alloc);
    for sub in &subs {
        add_binding(alloc, &mut relation, cohorts, *sub)?;
    }
    Ok(relation)
}

/// The plan of a subscription.
fn plan_of(held: &SubscriptionTable, sub: u64) -> Result<SharedPlan, NoMemory>
    requires { is_some (held_at sub held.now) ≡ true }
    ensures { IfOk result (λ plan. (h : Held) → held_at sub held.now ≡ Some h → plan ≡ h.plan) }
{
    match held.get(sub) {
        Some(held) => held.plan.share(),
        None => unreachable!(),
    }
}

impl Hub {
    /// The job of the members of a batch, the first of which is given.
    fn job_of(&self, alloc: Global, members: &[Member], first: u64) -> Result<Job, NoMemory>
        requires room { self.now.events < 2 ^ 62 }
        requires places { ArePlaces members.now }
        requires entries { AllByRecursion (HasEntry self.now.entries) members.now }
        requires first { has first self.now.entries ≡ true }
        requires held { is_some (held_at first self.now.held) ≡ true }
        ensures { IfOk result (λ job. IsJobFor self.now members.now first job) }
    {
        Ok(Job {
            number: self.jobs_made + 1,
            version: self.version,
            snapshot: self.snapshot.share(alloc)?,
            plan: plan_of(&self.held, first)?,
            relation: relation_of(alloc, &self.cohorts, members, first)?,
            members: copy_members(alloc, members)?,
        })
    }

    /// Takes a job of the poller that is due first: its cohorts with a due member, in the order of their least due
    /// numbers and no more than the batch size, with all of their live subscriptions, at the version now. `None`
    /// exactly where nobody is due. For want of memory nothing has changed.
    pub fn take(&mut self, alloc: Global) -> Result<Option<Job>, NoMemory>
        requires { self.old.events < 2 ^ 62 }
        ensures reply { IfOk result (λ job. TakeAnswers self.old self.new job) }
        ensures err { OnErr result (self.new ≡ self.old) }
    {
        results();
        plans();
        pollers();
        self.snapshot.fits();
        let size = self.meta.batch_size();
        let members = self.cohorts.batch(alloc, size)?;
        let Some(first) = members.get(0) else {
            self.events += 1;
            return Ok(None);
        };
        let job = self.job_of(alloc, members.as_slice(), first.sub)?;
        self.jobs.reserve(1)?;
        self.cohorts.open_job(job.number, &members);
        self.jobs.push_reserved(OpenJob {
            number: job.number,
            version: job.version,
            members,
        });
        self.jobs_made += 1;
        self.events += 1;
        Ok(Some(job))
    }
}
