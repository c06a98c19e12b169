ghost use Rattle.run_laws.specs.Admissions.{SubscriptionsAreAdmitted};
ghost use Rattle.run_laws.specs.Laws.{
  AreNumberedInOrder,
  ResultsAreOfTurns,
  TellsOwnResults,
  NeverReturns,
  BeginsAtItsSubscribe,
  TellsChanges,
  MovesAlong,
  EndsForGood,
  AnswersOnce,
  ClosesEnd,
  GoneEnds,
  LiveAreAcknowledged,
  AdmitsSubscribes,
  KeepsBatchesApart,
};

use role_model::Metadata;

/// What holds of every run of the machine, whatever its metadata and its events. A subscription's turn is its part in a
/// publication of which it is a live member.
///
/// - `numbers`: subscriptions have the numbers from 1 on, in order, and no number is used again.
/// - `results`: each `next` text is queued at a turn.
/// - `own`: at each turn a subscription is told the result of its own query and cursor, alone, on the snapshot after as
///   many accepted transactions as the job's version says: a live query first and then only on change, a query that is
///   answered once and then completed, a stream where there are rows.
/// - `order`, `beginning`: the versions of a subscription's turns never fall, and none is below the version at its
///   subscribe.
/// - `change`: two consecutive texts that a live query is told differ.
/// - `cursors`: a stream's cursor is, at each turn, where the turn before left it, at the last row that it was told.
/// - `completion`, `once`: a subscription has no turn after its end, and the event that answers a query which is
///   answered once completes and ends it.
/// - `closes`, `gone`, `live`: a close or the end of a connection ends its subscriptions, and each live one is of an
///   acknowledged connection.
/// - `admission`: a subscribe on an acknowledged connection, with an id that isn't live there, becomes a live
///   subscription exactly where what it asks for is admitted, and else is told its refusal alone.
/// - `queries`: what a subscription asks for was admitted, and only a stream has a cursor, where subscribes carry what
///   reading gives.
/// - `batches`: a subscription is a member of at most one open job, members of one cohort are in the same one, and who
///   is due is live and of a cohort without a member in an open job.
pub fn run_laws()
    ensures numbers { (meta : Metadata) → AreNumberedInOrder meta }
    ensures results { (meta : Metadata) → ResultsAreOfTurns meta }
    ensures own { (meta : Metadata) → TellsOwnResults meta }
    ensures order { (meta : Metadata) → NeverReturns meta }
    ensures beginning { (meta : Metadata) → BeginsAtItsSubscribe meta }
    ensures change { (meta : Metadata) → TellsChanges meta }
    ensures cursors { (meta : Metadata) → MovesAlong meta }
    ensures completion { (meta : Metadata) → EndsForGood meta }
    ensures once { (meta : Metadata) → AnswersOnce meta }
    ensures closes { (meta : Metadata) → ClosesEnd meta }
    ensures gone { (meta : Metadata) → GoneEnds meta }
    ensures live { (meta : Metadata) → LiveAreAcknowledged meta }
    ensures admission { (meta : Metadata) → AdmitsSubscribes meta }
    ensures queries { (meta : Metadata) → SubscriptionsAreAdmitted meta }
    ensures batches { (meta : Metadata) → KeepsBatchesApart meta }
{}
