//! The publication of a job's answers.
ghost use Rattle.std.specs.Prelude.{◌≡◌, ◌^◌, ◌<◌, ◌-◌, ℕ, [], ◌++◌, List, map, length, filter_map, IfOk, IfErr};
ghost use Rattle.std.specs.Prelude.{OnOk, OnErr};
ghost use Rattle.machine.specs.State.{Event};
ghost use Rattle.stream_cursor.specs.Moves.{AreApart, AreStreams, rekeyed};
ghost use Rattle.hub_model.specs.Kept.{Kept};
ghost use Rattle.hub_model.specs.Jobs.{AnswersOf};
ghost use Rattle.hub_model.specs.Stands.{StandsFor};
ghost use Rattle.hub_model.specs.Replies.{PublishAnswers};
ghost use Rattle.hub_model.specs.Tellings.{move_of, queued_by, queued_all, queues_all, tells, tells_one};
ghost use Rattle.hub.specs.Telling.{AreKept, AreKnown, IsKnown, all_told, promised_by, promised_for, text_of, told};
ghost use Rattle.hub.specs.Telling.{with_connected, with_tables};

use crate::center::Hub;
use crate::ends::end_one;
use crate::jobs::{close_job, is_open, members_of};
use crate::telling::{KeptList, none_kept, telling_by};
use cohort_map::{CohortMap, Member};
use connection_table::ConnectionTable;
use hub_model::{Answers, Change, PublishReply, Telling, TellingList};
use json_out::Outcome;
use machine::{Queued, QueuedList};
use outbox::OutText;
use scalar_val::{List, NoMemory, copy_val};
use std::alloc::Global;
use stream_cursor::{Move, MoveList, rekey};
use subscription_table::SubscriptionTable;

/// The place of a member's outcome.
fn place_of(member: &Member) -> usize
    ensures { result ≡ member.now.id - 1 }
{
    (member.id as usize).saturating_sub(1)
}

/// What a member is told, if anything: one that isn't live any more is told nothing.
fn telling_of(
    alloc: Global,
    cohorts: &CohortMap,
    held: &SubscriptionTable,
    outcomes: &[Outcome],
    kept: &mut KeptList,
    member: &Member,
) -> Result<Option<Telling>, NoMemory>
    requires { AreKept (map text_of outcomes.now) kept.old.items }
    ensures ok { IfOk result (λ telling. telling ≡ told cohorts.now.entries held.now outcomes.now member.now) }
    ensures kept { AreKept (map text_of outcomes.now) kept.new.items }
{
    if !cohorts.lives(member.sub) {
        return Ok(None);
    }
    let Some(held) = held.get(member.sub) else {
        return Ok(None);
    };
    let place = place_of(member);
    if place >= outcomes.len() {
        return Ok(None);
    }
    telling_by(alloc, kept, place, held, &outcomes[place])
}

/// What the members are told, in order.
fn tellings(
    alloc: Global,
    cohorts: &CohortMap,
    held: &SubscriptionTable,
    outcomes: &[Outcome],
    members: &[Member],
) -> Result<TellingList, NoMemory>
    ensures { IfOk result (λ tellings. tellings ≡ all_told cohorts.now.entries held.now outcomes.now members.now) }
{
    let mut kept = none_kept(alloc, outcomes.len())?;
    let mut tellings = List::new(alloc);
    for member in members {
        if let Some(telling) = telling_of(alloc, cohorts, held, outcomes, &mut kept, member)? {
            tellings.add(telling)?;
        }
    }
    Ok(tellings)
}

fn add_texts(queued: &mut QueuedList, telling: &Telling) -> Result<(), NoMemory>
    ensures { OnOk result (queued.new ≡ queued.old ++ queued_by telling.now) }
{
    for text in telling.texts.as_slice() {
        let text = text.share()?;
        queued.add(Queued {
            conn: telling.conn,
            text,
        })?;
    }
    Ok(())
}

/// The texts that are queued, in order.
fn queued_all(alloc: Global, tellings: &[Telling]) -> Result<QueuedList, NoMemory>
    ensures { IfOk result (λ queued. queued ≡ queued_all tellings.now) }
{
    let mut queued = List::new(alloc);
    for telling in tellings {
        add_texts(&mut queued, telling)?;
    }
    Ok(queued)
}

/// The move of a stream, if it is told to be.
fn move_of(alloc: Global, telling: &Telling) -> Result<Option<Move>, NoMemory>
    ensures { IfOk result (λ one. one ≡ move_of telling.now) }
{
    match &telling.change {
        Change::Moves(cursor) => Ok(Some(Move {
            sub: telling.sub,
            cursor: copy_val(alloc, cursor)?,
        })),
        _ => Ok(None),
    }
}

/// The moves of streams.
fn moves_of(alloc: Global, tellings: &[Telling]) -> Result<MoveList, NoMemory>
    ensures { IfOk result (λ moves. moves ≡ filter_map move_of tellings.now) }
{
    let mut moves = List::new(alloc);
    for telling in tellings {
        if let Some(one) = move_of(alloc, telling)? {
            moves.add(one)?;
        }
    }
    Ok(moves)
}

/// Makes room for the texts of a telling.
fn promise_texts(connections: &mut ConnectionTable, telling: &Telling) -> Result<(), NoMemory>
    requires { IsKnown connections.old.connections telling.now }
    ensures ok { OnOk result (connections.new.promised ≡ connections.old.promised ++ promised_by telling.now) }
    ensures connections { connections.new.connections ≡ connections.old.connections }
{
    for _text in telling.texts.as_slice() {
        connections.promise(telling.conn)?;
    }
    Ok(())
}

/// Makes room for all texts.
fn promise_all(connections: &mut ConnectionTable, tellings: &[Telling]) -> Result<(), NoMemory>
    requires { AreKnown connections.old.connections tellings.now }
    ensures ok { OnOk result (connections.new.promised ≡ connections.old.promised ++ promised_for tellings.now) }
    ensures connections { connections.new.connections ≡ connections.old.connections }
{
    for telling in tellings {
        promise_texts(connections, telling)?;
    }
    Ok(())
}

/// Makes all that needs memory, the texts that are queued among it; the streams have moved then, and there is room for
/// all texts. For want of memory nothing has changed.
fn prepare(
    alloc: Global,
    connections: &mut ConnectionTable,
    cohorts: &mut CohortMap,
    tellings: &[Telling],
) -> Result<QueuedList, NoMemory>
    requires known { AreKnown connections.old.connections tellings.now }
    requires streams { AreStreams (filter_map move_of tellings.now) cohorts.old.entries }
    requires apart { AreApart (filter_map move_of tellings.now) }
    requires promised { connections.old.promised ≡ [] }
    requires ready { cohorts.old.ready ≡ [] }
    ensures queued { IfOk result (λ queued. queued ≡ queued_all tellings.now) }
    ensures room { OnOk result (connections.new.promised ≡ promised_for tellings.now) }
    ensures moved { OnOk result (cohorts.new.entries ≡ rekeyed (filter_map move_of tellings.now) cohorts.old.entries) }
    ensures none { OnErr result (connections.new.promised ≡ []) }
    ensures unmoved { OnErr result (cohorts.new.entries ≡ cohorts.old.entries) }
    ensures connections { connections.new.connections ≡ connections.old.connections }
    ensures ready { cohorts.new.ready ≡ [] }
{
    let queued = queued_all(alloc, tellings)?;
    let moves = moves_of(alloc, tellings)?;
    if promise_all(connections, tellings).is_err() {
        connections.drop_promises();
        return Err(NoMemory);
    }
    if rekey(alloc, cohorts, &moves).is_err() {
        connections.drop_promises();
        return Err(NoMemory);
    }
    Ok(queued)
}

/// Queues texts on a connection, for which there is room.
fn queue_all(connections: &mut ConnectionTable, conn: u32, texts: List<OutText>)
    requires { (rest : List ℕ) × (connections.old.promised ≡ map (λ text. conn) texts ++ rest) }
    ensures queued { (k : Kept) → with_connected connections.new.connections k
        ≡ queues_all conn texts (with_connected connections.old.connections k) }
    ensures promised { (rest : List ℕ) → connections.old.promised ≡ map (λ text. conn) texts ++ rest
        → connections.new.promised ≡ rest }
{
    for text in texts.into_vec() {
        connections.keep_promise(conn, text);
    }
}

/// Tells a subscription, for whose texts there is room.
fn tell(
    connections: &mut ConnectionTable,
    held: &mut SubscriptionTable,
    cohorts: &mut CohortMap,
    telling: Telling,
)
    requires { (rest : List ℕ) × (connections.old.promised ≡ promised_by telling ++ rest) }
    ensures tells { (k : Kept) → with_tables connections.new.connections held.new cohorts.new.entries k
        ≡ tells_one telling (with_tables connections.old.connections held.old cohorts.old.entries k) }
    ensures promised { (rest : List ℕ) → connections.old.promised ≡ promised_by telling ++ rest
        → connections.new.promised ≡ rest }
    ensures ready { cohorts.new.ready ≡ cohorts.old.ready }
{
    let Telling {
        sub,
        conn,
        texts,
        change,
    } = telling;
    queue_all(connections, conn, texts);
    match change {
        Change::Remembers(text) => held.remember(sub, text),
        Change::Ends => {
            end_one(cohorts, held, sub);
            connections.forget(conn, sub);
        }
        Change::Moves(_) => {}
    }
}

/// Tells all, in order.
fn tell_all(
    connections: &mut ConnectionTable,
    held: &mut SubscriptionTable,
    cohorts: &mut CohortMap,
    tellings: TellingList,
)
    requires { connections.old.promised ≡ promised_for tellings }
    ensures tells { (k : Kept) → with_tables connections.new.connections held.new cohorts.new.entries k
        ≡ tells tellings (with_tables connections.old.connections held.old cohorts.old.entries k) }
    ensures promised { connections.new.promised ≡ [] }
    ensures ready { cohorts.new.ready ≡ cohorts.old.ready }
{
    for telling in tellings.into_vec() {
        tell(connections, held, cohorts, telling);
    }
}

impl Hub {
    /// Publishes the answers of a job and closes it: each member that is live is told its result, in the order of their
    /// numbers. A live query is told its first result and each that differs from the one before; a query that is
    /// answered once is told its result and that it is complete, and ends; a stream is told its next rows, where there
    /// are any, and moves along. `NotOpen` exactly where the number isn't that of an open job. For want of memory
    /// nothing has changed, and the answers are handed back whole.
    pub fn publish(&mut self, alloc: Global, answers: Answers) -> Result<PublishReply, Answers>
        requires room { self.old.events < 2 ^ 62 }
        requires answers { (h : List Event) × StandsFor self.old h × AnswersOf self.old.meta answers h }
        ensures reply { IfOk result (λ reply. PublishAnswers self.old self.new answers reply) }
        ensures err { OnErr result (self.new ≡ self.old) }
        ensures handed_back { IfErr result (λ back. back ≡ answers) }
    {
        let number = answers.number();
        if !is_open(&self.jobs, number) {
            self.events += 1;
            return Ok(PublishReply::NotOpen);
        }
        let Ok(tellings) = tellings(
            alloc,
            &self.cohorts,
            &self.held,
            answers.outcomes(),
            members_of(&self.jobs, number),
        ) else {
            return Err(answers);
        };
        let Ok(queued) = prepare(
            alloc,
            &mut self.connections,
            &mut self.cohorts,
            tellings.as_slice(),
        ) else {
            return Err(answers);
        };
        tell_all(
            &mut self.connections,
            &mut self.held,
            &mut self.cohorts,
            tellings,
        );
        close_job(
            &mut self.cohorts,
            &mut self.held,
            &mut self.jobs,
            number,
            false,
        );
        self.events += 1;
        Ok(PublishReply::Published(queued))
    }
}
