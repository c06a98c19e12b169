ghost use Rattle.std.specs.Prelude.{◌≡◌, List};
ghost use Rattle.role_model.specs.declared.metadata.Metadata.{Metadata};
ghost use Rattle.machine.specs.State.{Event};
ghost use Rattle.hub_model.specs.Jobs.{evaluated, AnswersOf, AnswersStay, JobOf, JobsStay};

use batch_rel::Relation;
use cohort_map::MemberList;
use json_out::Outcome;
use row_store::Snapshot;
use scalar_val::List;
use subscription_table::SharedPlan;

/// The results of a job's cohorts, in the order of the rows of its relation.
pub type OutcomeList = List<Outcome>;

/// A batch of subscriptions that are evaluated together, on one database.
#[derive(Drop)]
pub struct Job {
    /// Jobs are numbered from 1 in the order of their takes.
    pub number: u64,
    /// The number of transactions that were accepted when it was taken.
    pub version: u64,
    /// The database of that version.
    pub snapshot: Snapshot,
    /// What its members ask for.
    pub plan: SharedPlan,
    /// The binding of each of its cohorts, with the cohort's result id.
    pub relation: Relation,
    /// The members, in the order of their numbers, each with the result id of its cohort.
    pub members: MemberList,
}

/// What is kept of a job while it is open.
#[derive(Drop)]
pub struct OpenJob {
    pub number: u64,
    pub version: u64,
    pub members: MemberList,
}

/// The results of a job, which are to be published.
#[derive(Drop)]
pub struct Answers {
    number: u64,
    outcomes: OutcomeList,
}

impl Answers {
    /// The answers that the outcomes of a job's evaluation are, one for each row of its relation. It takes no memory.
    pub fn of(job: &Job, outcomes: OutcomeList) -> Answers
        ensures number { result.number ≡ job.now.number }
        ensures outcomes { result.outcomes ≡ outcomes }
        // Those that the evaluation of a job gives may be published.
        ensures answers { (meta : Metadata) → (h : List Event) → JobOf meta job.now h → outcomes ≡ evaluated job.now →
            AnswersOf meta result h }
    {
        Answers {
            number: job.number,
            outcomes,
        }
    }

    /// The number of their job.
    pub fn number(&self) -> u64
        ensures { result ≡ self.now.number }
    {
        self.number
    }

    /// The outcomes, one for each cohort.
    pub fn outcomes(&self) -> &[Outcome]
        ensures { result.now ≡ self.now.outcomes }
    {
        self.outcomes.as_slice()
    }
}

/// A job stays that of its take, and answers stay those of their job, however long the history goes on.
pub fn job_laws()
    ensures jobs { (meta : Metadata) → JobsStay meta }
    ensures answers { (meta : Metadata) → AnswersStay meta }
{}
