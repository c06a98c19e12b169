ghost use Rattle.run_laws.specs.Takings.{
  JobsAreCounted,
  JobsAreNumbered,
  OpenJobsWereTaken,
  TakingsStay,
  MembersStay,
  DatabasesStay,
  SnapshotsStay,
  DueAscend,
  MembersAscend,
  LiveIdsDiffer,
  KeptAreEnough,
  PollsEndIdle,
  BatchesHaveRoom,
};

use role_model::Metadata;

/// What holds of the jobs of every run, whatever its metadata and its events. A taking is what one take gave, with the
/// state in which it was taken.
///
/// - `counted`, `numbered`: the count of jobs is that of takings, and open jobs stand in the order of their numbers,
///   from 1 up to that count, each at a version that was reached.
/// - `taken`, `takings`: an open job is what the taking of its number gave, and a taking stays what it is.
/// - `members`: the members of an open job stand where they stood at its taking, with their numbers, connections, ids,
///   queries and cursors: only its own publication moves them.
/// - `databases`, `snapshots`: the database of an open job is that of its taking, as is each snapshot of a version that
///   was reached.
/// - `due`: the due numbers ascend, and each is that of a live subscription.
/// - `order`: the members of an open job stand in the order of their subscriptions, which are known, with the places of
///   cohorts from 1 on.
/// - `ids`: no two live subscriptions of one connection have one id.
/// - `kept`: ticks, takes, and the publications and ends of jobs do the same where subscriptions are left out that are
///   neither live nor members of an open job.
/// - `polls`, `room`: after a poll nobody is due, where a batch has room for a cohort, as in all metadata that is read.
pub fn taking_laws()
    ensures counted { (meta : Metadata) → JobsAreCounted meta }
    ensures numbered { (meta : Metadata) → JobsAreNumbered meta }
    ensures taken { (meta : Metadata) → OpenJobsWereTaken meta }
    ensures takings { (meta : Metadata) → TakingsStay meta }
    ensures members { (meta : Metadata) → MembersStay meta }
    ensures databases { (meta : Metadata) → DatabasesStay meta }
    ensures snapshots { (meta : Metadata) → SnapshotsStay meta }
    ensures due { (meta : Metadata) → DueAscend meta }
    ensures order { (meta : Metadata) → MembersAscend meta }
    ensures ids { (meta : Metadata) → LiveIdsDiffer meta }
    ensures kept { (meta : Metadata) → KeptAreEnough meta }
    ensures polls { (meta : Metadata) → PollsEndIdle meta }
    ensures room { (meta : Metadata) → BatchesHaveRoom meta }
{}
