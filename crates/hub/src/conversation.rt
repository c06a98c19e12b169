//! What clients' messages do.
ghost use Rattle.std.specs.Prelude.{
  ◌≡◌,
  ◌^◌,
  ◌<◌,
  ◌++◌,
  ◌∷◌,
  [],
  Option,
  Some,
  Ok,
  Err,
  find,
  option_map,
  IfOk,
  OnOk,
  OnErr,
};
ghost use Rattle.std.specs.List.{AllByRecursion};
ghost use Rattle.serde_json.specs.Data.{Data};
ghost use Rattle.serde_json.specs.View.{view};
ghost use Rattle.request_model.specs.Selection.{given_values};
ghost use Rattle.query_model.specs.Admission.{Admits};
ghost use Rattle.wire_model.specs.ClientMessages as client;
ghost use Rattle.wire_model.specs.ServerMessages.{written};
ghost use Rattle.ws_message.specs.Meant.{meant};
ghost use Rattle.machine.specs.Connections.{stage_of};
ghost use Rattle.machine.specs.Messages.{Message, Says};
ghost use Rattle.machine.specs.State.{Binary, Event, Receive};
ghost use Rattle.cohort_map.specs.Entries.{entered};
ghost use Rattle.connection_table.specs.Connected.{changed, with_live, with_text};
ghost use Rattle.hub_model.specs.Steps.{counted, ended};
ghost use Rattle.hub_model.specs.Replies.{ConnAnswers};
ghost use Rattle.hub.specs.Parts.{did_nothing};
ghost use Rattle.hub.specs.Readings.{IsReadAs, ReadsRequest};
ghost use Rattle.hub.specs.Messages.{
  stage_in,
  phase_in,
  has_id,
  live_as,
  id_in,
  AsksFor,
  Received,
  SaysBy,
  AcknowledgesBy,
  EndsBy,
  JoinsBy,
  word_of,
  joining,
  IsReady,
  refusal_text,
};

use crate::center::{Hub, nothing};
use crate::ends::end_one;
use crate::reading::{Parts, Said, Selection, admit_read, read_parts};
use admission_laws::requests;
use cohort_map::{CohortMap, PollerKey};
use connection_table::ConnectionTable;
use hub_model::{ConnReply, Effect};
use json_out::Request;
use machine::{Phase, Queued, QueuedList};
use outbox::OutText;
use plan_build::{AdmitFault, Admitted, QueryFault, SubKind, fault_code, fault_text};
use plan_core::Binding;
use request_model::canonical_texts;
use role_model::{Identity, Session};
use role_schema::Meta;
use scalar_val::{List, NoMemory, Str, Word};
use serde_json::Value;
use session_vars::identify;
use std::alloc::Global;
use subscription_table::{Held, SharedPlan, SubscriptionTable};
use wire_model::{Action, CloseReason, Phase as Stage, ServerMsg, close_exists};
use ws_message::{ClientMsg, write_server};
use ws_session::step;

/// The id in a message, and an empty one where there is none in it.
fn id_of(msg: &ClientMsg) -> &str
    ensures { result.now ≡ id_in (meant msg.now) }
{
    match msg {
        ClientMsg::Subscribe { id, .. } => id.as_str(),
        ClientMsg::Complete { id } => id.as_str(),
        _ => "",
    }
}

/// The payload of a `connection_init`, where there is one.
fn payload_of(msg: &ClientMsg) -> Option<&Value>
    ensures { (payload : Option Data) → meant msg.now ≡ client.Init payload →
        option_map (λ v. view v.now) result ≡ payload }
{
    match msg {
        ClientMsg::Init(Some(payload)) => Some(payload),
        _ => None,
    }
}

fn stage_of(phase: &Phase) -> Stage
    ensures { result ≡ stage_of phase.now }
{
    match phase {
        Phase::Fresh => Stage::Fresh,
        Phase::Acknowledged { .. } => Stage::Acked,
        Phase::Closed { .. } => Stage::Closed,
    }
}

/// One text that is queued.
fn one_queued(alloc: Global, conn: u32, text: OutText) -> Result<QueuedList, NoMemory>
    ensures { IfOk result (λ queued. queued ≡ record { conn = conn; text = text } ∷ []) }
{
    let mut queued = List::new(alloc);
    match queued.push(Queued { conn, text }) {
        Ok(()) => Ok(queued),
        Err(_) => Err(NoMemory),
    }
}

/// Queues a message for a connection, and says what was queued. For want of memory nothing is queued.
fn queue(
    connections: &mut ConnectionTable,
    alloc: Global,
    conn: u32,
    msg: &ServerMsg<'_>,
) -> Result<QueuedList, NoMemory>
    ensures queued { IfOk result (λ queued. queued ≡ record { conn = conn; text = written msg.now } ∷ []) }
    ensures ok { OnOk result (connections.new.connections
        ≡ changed conn (with_text (written msg.now)) connections.old.connections) }
    ensures err { OnErr result (connections.new.connections ≡ connections.old.connections) }
    ensures promised { connections.new.promised ≡ connections.old.promised }
{
    let text = write_server(alloc, msg)?;
    let queued = one_queued(alloc, conn, text.share()?)?;
    connections.queue(conn, text)?;
    Ok(queued)
}

fn has_id(held: &SubscriptionTable, id: &str, number: u64) -> bool
    ensures { result ≡ has_id held.now id.now number }
{
    match held.get(number) {
        Some(held) => held.id.as_str() == id,
        None => false,
    }
}

/// The first of these numbers under which something is held with this id.
fn find_id(held: &SubscriptionTable, id: &str, numbers: &[u64]) -> Option<u64>
    ensures { result ≡ find (has_id held.now id.now) numbers.now }
{
    for number in numbers {
        if has_id(held, id, *number) {
            return Some(*number);
        }
    }
    None
}

/// What a subscription begins with.
#[derive(Drop)]
struct Ready {
    kind: SubKind,
    plan: SharedPlan,
    poller: PollerKey,
    binding: Binding,
}

/// The word of the operations that become subscriptions of a kind.
fn word_of(kind: SubKind) -> Word
    ensures { result ≡ word_of kind }
{
    match kind {
        SubKind::Once => Word::Query,
        SubKind::Live | SubKind::Stream => Word::Subscription,
    }
}

/// What the subscription of a request that is admitted begins with.
fn ready_with(alloc: Global, session: &Session, admitted: Admitted) -> Result<Ready, NoMemory>
    ensures kind { IfOk result (λ ready. ready.kind ≡ admitted.kind) }
    ensures plan { IfOk result (λ ready. ready.plan ≡ admitted.plan) }
    ensures poller { IfOk result (λ ready. ready.poller
        ≡ record { word = word_of admitted.kind; role = session.now.role; canon = admitted.canon }) }
    ensures binding { IfOk result (λ ready. ready.binding ≡ admitted.binding) }
{
    let Admitted {
        kind,
        plan,
        canon,
        binding,
    } = admitted;
    let role = Str::of(alloc, session.role.as_str())?;
    let plan = SharedPlan::of(alloc, plan)?;
    let poller = PollerKey {
        word: word_of(kind),
        role,
        canon,
    };
    Ok(Ready {
        kind,
        plan,
        poller,
        binding,
    })
}

/// What a request comes to that is read.
fn made_ready(
    alloc: Global,
    meta: &Meta,
    session: &Session,
    request: &Request,
    selection: &Selection,
) -> Result<Ready, AdmitFault>
    requires { ReadsRequest request.now selection.now }
    ensures ok { IfOk result (IsReady meta.now session.now request.now) }
    ensures refused { (fault : QueryFault) → result ≡ Err (AdmitFault.Refused fault) →
        Admits meta.now session.now request.now.query request.now.operation
        (given_values (view request.now.variables)) (Err fault) }
{
    canonical_texts();
    meta.is_metadata();
    let admitted = admit_read(alloc, meta, session, request, selection)?;
    Ok(ready_with(alloc, session, admitted)?)
}

/// Puts a subscription into the tables, all of them or none. It needs a number above all others.
fn enter(
    connections: &mut ConnectionTable,
    table: &mut SubscriptionTable,
    cohorts: &mut CohortMap,
    alloc: Global,
    held: Held,
    poller: PollerKey,
    binding: Binding,
) -> Result<(), NoMemory>
    requires live { AllByRecursion (λ c. AllByRecursion (λ n. n < held.number) c.live) connections.old.connections }
    requires held { AllByRecursion (λ h. h.number < held.number) table.old }
    requires entries { AllByRecursion (λ e. e.number < held.number) cohorts.old.entries }
    requires ready { cohorts.old.ready ≡ [] }
    ensures live { OnOk result (connections.new.connections
        ≡ changed held.connection (with_live held.number) connections.old.connections) }
    ensures held { OnOk result (table.new ≡ table.old ++ held ∷ []) }
    ensures entries { OnOk result (cohorts.new.entries
        ≡ cohorts.old.entries ++ entered held.number poller binding ∷ []) }
    ensures not_live { OnErr result (connections.new.connections ≡ connections.old.connections) }
    ensures not_held { OnErr result (table.new ≡ table.old) }
    ensures not_entered { OnErr result (cohorts.new.entries ≡ cohorts.old.entries) }
    ensures promised { connections.new.promised ≡ connections.old.promised }
    ensures ready { cohorts.new.ready ≡ cohorts.old.ready }
{
    let (conn, number) = (held.connection, held.number);
    connections.add_live(conn, number)?;
    if table.push(held).is_err() {
        connections.forget(conn, number);
        return Err(NoMemory);
    }
    if cohorts.join(alloc, number, poller, binding).is_err() {
        table.remove(number);
        connections.forget(conn, number);
        return Err(NoMemory);
    }
    Ok(())
}

impl Hub {
    /// How far a connection has come, or `None` where it isn't known.
    pub(crate) fn stage(&self, conn: u32) -> Option<Stage>
        ensures { result ≡ stage_in conn self.now }
    {
        match self.connections.phase(conn) {
            Some(phase) => Some(stage_of(phase)),
            None => None,
        }
    }

    /// The number of the live subscription of a connection that has this id.
    fn live_number(&self, conn: u32, id: &str) -> Option<u64>
        ensures { result ≡ live_as conn id.now self.now }
    {
        find_id(&self.held, id, self.connections.live(conn))
    }

    /// What a message asks for on a connection that has come this far.
    fn asked(&self, conn: u32, stage: Stage, msg: &ClientMsg) -> Action
        requires { stage_in conn self.now ≡ Some stage }
        ensures { AsksFor conn (meant msg.now) result self.now }
    {
        let live = self.live_number(conn, id_of(msg));
        step(&stage, msg, live.is_some())
    }

    /// A text comes on a connection: a message of the `graphql-transport-ws` protocol, or none of them. `ConnUnknown`
    /// exactly where the connection isn't known. For want of memory nothing has changed.
    pub fn recv(&mut self, alloc: Global, conn: u32, text: &str) -> Result<ConnReply, NoMemory>
        requires { self.old.events < 2 ^ 62 }
        ensures reply { (message : Message) → Says text.now message →
            IfOk result (λ reply. ConnAnswers self.old self.new conn (Receive conn message) reply) }
        ensures some { IfOk result (λ reply. (message : Message)
            × ConnAnswers self.old self.new conn (Receive conn message) reply) }
        ensures err { OnErr result (self.new ≡ self.old) }
    {
        let parts = read_parts(alloc, text)?;
        self.hear_parts(alloc, conn, &parts)
    }

    /// A text that was read before comes on a connection. `ConnUnknown` exactly where the connection isn't known. For
    /// want of memory nothing has changed.
    pub fn hear(&mut self, alloc: Global, conn: u32, said: &Said) -> Result<ConnReply, NoMemory>
        requires { self.old.events < 2 ^ 62 }
        ensures reply { IfOk result (λ reply. ConnAnswers self.old self.new conn (Receive conn said.now) reply) }
        ensures err { OnErr result (self.new ≡ self.old) }
    {
        self.hear_parts(alloc, conn, &said.parts)
    }

    fn hear_parts(&mut self, alloc: Global, conn: u32, parts: &Parts) -> Result<ConnReply, NoMemory>
        requires room { self.old.events < 2 ^ 62 }
        requires read { IsReadAs parts.now.msg parts.now.selection }
        ensures reply { IfOk result (Received self.old self.new conn (meant parts.now.msg)) }
        ensures err { OnErr result (self.new ≡ self.old) }
    {
        let Some(stage) = self.stage(conn) else {
            self.count();
            return Ok(ConnReply::ConnUnknown);
        };
        self.receive(alloc, conn, stage, parts)
    }

    /// A binary message comes on a connection, which is no message of the protocol. `ConnUnknown` exactly where the
    /// connection isn't known. It takes no memory.
    pub fn binary(&mut self, alloc: Global, conn: u32) -> ConnReply
        requires { self.old.events < 2 ^ 62 }
        ensures { ConnAnswers self.old self.new conn (Binary conn) result }
    {
        let Some(stage) = self.stage(conn) else {
            self.count();
            return ConnReply::ConnUnknown;
        };
        match stage {
            Stage::Closed => self.ignore(alloc),
            _ => self.close(alloc, conn, CloseReason::Invalid),
        }
    }

    /// One more event, which changes nothing.
    fn count(&mut self)
        requires { self.old.events < 2 ^ 62 }
        ensures { self.new ≡ counted self.old }
    {
        self.events += 1;
    }

    fn ignore(&mut self, alloc: Global) -> ConnReply
        requires { self.old.events < 2 ^ 62 }
        ensures new { self.new ≡ counted self.old }
        ensures reply { result ≡ did_nothing }
    {
        self.count();
        nothing(alloc)
    }

    /// What a message on a connection does that has come this far.
    fn receive(
        &mut self,
        alloc: Global,
        conn: u32,
        stage: Stage,
        parts: &Parts,
    ) -> Result<ConnReply, NoMemory>
        requires room { self.old.events < 2 ^ 62 }
        requires stage { stage_in conn self.old ≡ Some stage }
        requires read { IsReadAs parts.now.msg parts.now.selection }
        ensures reply { IfOk result (Received self.old self.new conn (meant parts.now.msg)) }
        ensures err { OnErr result (self.new ≡ self.old) }
    {
        let msg = &parts.msg;
        match self.asked(conn, stage, msg) {
            Action::Identify => self.identify(alloc, conn, msg),
            Action::Admit => self.subscribe(alloc, conn, parts),
            Action::End => match self.live_number(conn, id_of(msg)) {
                Some(number) => Ok(self.end(alloc, conn, number)),
                None => unreachable!(),
            },
            Action::Pong => self.say(alloc, conn, &ServerMsg::Pong),
            Action::Ignore => Ok(self.ignore(alloc)),
            Action::Invalid => Ok(self.close(alloc, conn, CloseReason::Invalid)),
            Action::Unauthorized => Ok(self.close(alloc, conn, CloseReason::Unauthorized)),
            Action::Exists => Ok(self.close(alloc, conn, close_exists(id_of(msg)))),
            Action::TooManyInits => Ok(self.close(alloc, conn, CloseReason::TooManyInits)),
        }
    }

    /// A message is queued. It needs an event that does so. For want of memory nothing has changed.
    fn say(&mut self, alloc: Global, conn: u32, msg: &ServerMsg<'_>) -> Result<ConnReply, NoMemory>
        requires room { self.old.events < 2 ^ 62 }
        requires event { (e : Event) × SaysBy self.old conn (written msg.now) e }
        ensures reply { IfOk result (λ reply. (e : Event) → SaysBy self.old conn (written msg.now) e →
            ConnAnswers self.old self.new conn e reply) }
        ensures err { OnErr result (self.new ≡ self.old) }
    {
        let queued = queue(&mut self.connections, alloc, conn, msg)?;
        self.events += 1;
        Ok(ConnReply::Did(Effect {
            queued,
            closed: None,
        }))
    }

    /// A `connection_init` on a fresh connection.
    fn identify(&mut self, alloc: Global, conn: u32, msg: &ClientMsg) -> Result<ConnReply, NoMemory>
        requires room { self.old.events < 2 ^ 62 }
        requires asks { AsksFor conn (meant msg.now) Action.Identify self.old }
        ensures reply { IfOk result (Received self.old self.new conn (meant msg.now)) }
        ensures err { OnErr result (self.new ≡ self.old) }
    {
        match identify(alloc, &self.meta, payload_of(msg))? {
            Identity::Allowed(session) => self.acknowledge(alloc, conn, session),
            Identity::Forbidden => Ok(self.close(alloc, conn, CloseReason::Forbidden)),
        }
    }

    /// A connection is acknowledged, and acts for a session from here on. It needs an event that does so. For want of
    /// memory nothing has changed.
    fn acknowledge(
        &mut self,
        alloc: Global,
        conn: u32,
        session: Session,
    ) -> Result<ConnReply, NoMemory>
        requires room { self.old.events < 2 ^ 62 }
        requires event { (e : Event) × AcknowledgesBy self.old conn session e }
        ensures reply { IfOk result (λ reply. (e : Event) → AcknowledgesBy self.old conn session e →
            ConnAnswers self.old self.new conn e reply) }
        ensures err { OnErr result (self.new ≡ self.old) }
    {
        let queued = queue(&mut self.connections, alloc, conn, &ServerMsg::Ack)?;
        self.connections.acknowledge(conn, session);
        self.events += 1;
        Ok(ConnReply::Did(Effect {
            queued,
            closed: None,
        }))
    }

    /// The live subscription of this number ends. It needs an event that does so.
    fn end(&mut self, alloc: Global, conn: u32, number: u64) -> ConnReply
        requires room { self.old.events < 2 ^ 62 }
        requires event { (e : Event) × EndsBy self.old conn number e }
        ensures new { self.new ≡ counted (ended conn number self.old) }
        ensures reply { result ≡ did_nothing }
    {
        end_one(&mut self.cohorts, &mut self.held, number);
        self.connections.forget(conn, number);
        self.events += 1;
        nothing(alloc)
    }

    /// What a request on a connection that is acknowledged comes to.
    fn admitted(
        &self,
        alloc: Global,
        conn: u32,
        request: &Request,
        selection: &Selection,
    ) -> Result<Ready, AdmitFault>
        requires session { (session : Session) × (phase_in conn self.now ≡ Some (Phase.Acknowledged session)) }
        requires read { ReadsRequest request.now selection.now }
        ensures ok { (session : Session) → phase_in conn self.now ≡ Some (Phase.Acknowledged session) →
            IfOk result (IsReady self.now.meta session request.now) }
        ensures refused { (session : Session) → phase_in conn self.now ≡ Some (Phase.Acknowledged session) →
            (fault : QueryFault) → result ≡ Err (AdmitFault.Refused fault) →
            Admits self.now.meta session request.now.query request.now.operation
            (given_values (view request.now.variables)) (Err fault) }
    {
        match self.connections.phase(conn) {
            Some(Phase::Acknowledged { session }) => made_ready(
                alloc, &self.meta, session, request, selection,
            ),
            _ => unreachable!(),
        }
    }

    /// A `subscribe` on a connection that is acknowledged, with an id that isn't live there.
    fn subscribe(&mut self, alloc: Global, conn: u32, parts: &Parts) -> Result<ConnReply, NoMemory>
        requires room { self.old.events < 2 ^ 62 }
        requires asks { AsksFor conn (meant parts.now.msg) Action.Admit self.old }
        requires read { IsReadAs parts.now.msg parts.now.selection }
        ensures reply { IfOk result (Received self.old self.new conn (meant parts.now.msg)) }
        ensures err { OnErr result (self.new ≡ self.old) }
    {
        requests();
        let ClientMsg::Subscribe { id, request } = &parts.msg else {
            unreachable!()
        };
        let Some(selection) = &parts.selection else {
            unreachable!()
        };
        match self.admitted(alloc, conn, request, selection) {
            Ok(ready) => self.join(alloc, conn, id.as_str(), ready),
            Err(AdmitFault::Refused(fault)) => self.refuse(alloc, conn, id.as_str(), &fault),
            Err(AdmitFault::NoMemory) => Err(NoMemory),
        }
    }

    /// A refusal is queued. It needs an event that does so. For want of memory nothing has changed.
    fn refuse(
        &mut self,
        alloc: Global,
        conn: u32,
        id: &str,
        fault: &QueryFault,
    ) -> Result<ConnReply, NoMemory>
        requires room { self.old.events < 2 ^ 62 }
        requires event { (e : Event) × SaysBy self.old conn (refusal_text id.now fault.now) e }
        ensures reply { IfOk result (λ reply. (e : Event) → SaysBy self.old conn (refusal_text id.now fault.now) e →
            ConnAnswers self.old self.new conn e reply) }
        ensures err { OnErr result (self.new ≡ self.old) }
    {
        let message = fault_text(alloc, fault)?;
        let msg = ServerMsg::Error {
            id,
            message: message.as_str(),
            code: fault_code(fault.kind),
        };
        self.say(alloc, conn, &msg)
    }

    /// The next subscription begins. It needs an event by which it does. For want of memory nothing has changed.
    fn join(
        &mut self,
        alloc: Global,
        conn: u32,
        id: &str,
        ready: Ready,
    ) -> Result<ConnReply, NoMemory>
        requires room { self.old.events < 2 ^ 62 }
        requires event { (e : Event) × JoinsBy self.old conn (joining id.now ready) e }
        ensures reply { IfOk result (λ reply. (e : Event) → JoinsBy self.old conn (joining id.now ready) e →
            ConnAnswers self.old self.new conn e reply) }
        ensures err { OnErr result (self.new ≡ self.old) }
    {
        let Ready {
            kind,
            plan,
            poller,
            binding,
        } = ready;
        let id = Str::of(alloc, id)?;
        let number = self.subscribed + 1;
        let held = Held {
            number,
            connection: conn,
            id,
            kind,
            plan,
            last: None,
        };
        enter(
            &mut self.connections,
            &mut self.held,
            &mut self.cohorts,
            alloc,
            held,
            poller,
            binding,
        )?;
        self.subscribed = number;
        self.events += 1;
        Ok(nothing(alloc))
    }
}
