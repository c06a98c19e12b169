//! The engine.
ghost use Rattle.std.specs.Prelude.{◌≡◌, ◌≢◌, [], ◌∷◌, false, IsOk, IfOk, IfErr};
ghost use Rattle.history_lock.specs.History.{events, own, longer, Extends};
ghost use Rattle.machine.specs.State.{Take, Publish};
ghost use Rattle.hub_model.specs.Jobs.{AnswersOf};
ghost use Rattle.subs_engine.specs.Calls.{MakesOne};
ghost use Rattle.subs_engine.specs.Events.{Answers as IsAnswered, AnswersText, IsText};
ghost use Rattle.subs_engine.specs.Jobs.{IfJob, Publishes, take_answer};
ghost use Rattle.subs_engine.specs.Faults.{CallFails, PublishFails, TakeFails};

use crate::giving::{Other, give_event, give_other, give_said};
use crate::making::make;
use history_lock::HistoryLock;
use hub::{Answers, Event, Hub, Job, PublishReply, Reply, Said};
use role_schema::Meta;
use scalar_val::{NoMemory, Str};
use std::alloc::Global;
use std::marker::Model;
use std::sync::Wait;

/// A thread's part in the history of one engine. Contracts see it as a `PassView`; its basis is the metadata.
pub type Pass = history_lock::Pass<Hub>;

/// Why a call made no event of its own, or a `skip` in its place. It hands the event back.
#[derive(Drop)]
pub enum CallFault {
    /// All 2^62 turns are taken.
    Spent(Event),
    /// Memory was refused. What was found under the turn stands in the history as a `skip`; a text may lack it before
    /// its turn, and then nothing stands there.
    NoMemory(Event),
}

/// Why no job was taken, or one was taken and not published.
#[derive(Clone, Copy, Debug, PartialEq, Eq)]
pub enum TakeFault {
    /// All 2^62 turns are taken.
    Spent,
    /// Memory was refused.
    NoMemory,
}

/// Why nothing was published. It hands the answers back.
#[derive(Drop)]
pub enum PublishFault {
    /// All 2^62 turns are taken.
    Spent(Answers),
    /// Memory was refused. It stands in the history as a `skip`.
    NoMemory(Answers),
}

/// A hub that threads share by passes. Contracts see it as a `LockId`, which lock it has.
#[derive(Drop)]
pub struct Engine {
    pub(crate) lock: HistoryLock<Hub>,
}

impl Model for Engine {
    ghost use Rattle.history_lock.specs.PassViews.{LockId, table_id_coded};

    ghost Value = { LockId };

    ghost coded = { table_id_coded };

    ghost view = { λ e. e.lock };
}

impl Engine {
    /// An engine to which nothing has happened, and its first pass, whose number is 0.
    ///
    /// `NoMemory`: memory was refused. The metadata is then dropped.
    pub fn new(alloc: Global, meta: Meta) -> Result<(Engine, Pass), NoMemory>
        ensures { IfOk result (λ r.
            r.1 ≡ record { lock = r.0; number = 0; basis = meta; seen = []; has_turn = false }) }
    {
        let hub = Hub::new(alloc, meta)?;
        let (lock, pass) = HistoryLock::new(alloc, hub)?;
        Ok((Engine { lock }, pass))
    }

    /// A second pass, which has seen as much. Its number is another than that of the first, and no entry has it.
    ///
    /// It takes no memory, so the answer is never `NoMemory`.
    pub fn split(&self, pass: &mut Pass) -> Result<Pass, NoMemory>
        requires { (pass.old.lock ≡ self.now) × (pass.old.has_turn ≡ false) }
        ensures made { IsOk result }
        ensures same { pass.new ≡ pass.old }
        ensures second { IfOk result (λ p.
            (p ≡ record pass.old { number = p.number })
            × (own p.number p.seen ≡ [])
            × (p.number ≢ pass.old.number)) }
    {
        self.lock.split(pass)
    }

    /// Ends the other pass. The first then knows the longer of the two lists, of which the other list is a prefix, and
    /// beyond its own list neither pass has an entry there. The two had different numbers and the same metadata.
    pub fn join(&self, pass: &mut Pass, other: Pass)
        requires pass { (pass.old.lock ≡ self.now) × (pass.old.has_turn ≡ false) }
        requires other { (other.lock ≡ self.now) × (other.has_turn ≡ false) }
        ensures same { pass.new ≡ record pass.old { seen = longer pass.old.seen other.seen } }
        ensures first { Extends pass.old.number pass.old.seen pass.new.seen }
        ensures second { Extends other.number other.seen pass.new.seen }
        ensures apart { pass.old.number ≢ other.number }
        ensures basis { pass.old.basis ≡ other.basis }
    {
        self.lock.join(pass, other);
    }

    /// Makes an event, under a turn of its own. What the pass had seen begins what it has seen then, whose last entry
    /// is this event, and no other new one is its own. The reply is the machine's there, with the texts that are queued
    /// and the close. A text is the event of the message that it says, and is read before the turn.
    ///
    /// `Spent`: all turns are taken; the pass has seen 2^62 entries. `NoMemory`: memory was refused; only a
    /// transaction, a new connection and a text may find so. The event is handed back.
    pub fn call<R: Wait>(
        &self,
        rt: &R,
        alloc: Global,
        pass: &mut Pass,
        event: Event,
    ) -> Result<Reply, CallFault>
        requires { (pass.old.lock ≡ self.now) × (pass.old.has_turn ≡ false) }
        ensures same { pass.new ≡ record pass.old { seen = pass.new.seen } }
        ensures ok { IfOk result (λ r. IsAnswered event r (MakesOne pass.old pass.new)) }
        ensures fails { IfErr result (λ f. CallFails event f pass.old pass.new) }
    {
        match event {
            Event::Text(conn, text) => self.call_text(rt, alloc, pass, conn, text),
            event => self.call_other(rt, alloc, pass, event),
        }
    }

    // The event of a text.
    fn call_text<R: Wait>(
        &self,
        rt: &R,
        alloc: Global,
        pass: &mut Pass,
        conn: u32,
        text: Str,
    ) -> Result<Reply, CallFault>
        requires { (pass.old.lock ≡ self.now) × (pass.old.has_turn ≡ false) }
        ensures same { pass.new ≡ record pass.old { seen = pass.new.seen } }
        ensures ok { IfOk result (λ r. AnswersText conn text r (MakesOne pass.old pass.new)) }
        ensures fails { IfErr result (λ f. CallFails (Event.Text conn text) f pass.old pass.new) }
    {
        let Ok(said) = Said::read(alloc, text.as_str()) else {
            return Err(CallFault::NoMemory(Event::Text(conn, text)));
        };
        let Ok(mut turn) = self.lock.turn(rt, pass) else {
            return Err(CallFault::Spent(Event::Text(conn, text)));
        };
        match turn.state().hear(alloc, conn, &said) {
            Ok(reply) => {
                give_said(&self.lock, pass, turn, conn, &said);
                Ok(Reply::Conn(reply))
            }
            Err(NoMemory) => {
                turn.state().skip();
                give_other(&self.lock, pass, turn, Other::Skip);
                Err(CallFault::NoMemory(Event::Text(conn, text)))
            }
        }
    }

    // Each other event.
    fn call_other<R: Wait>(
        &self,
        rt: &R,
        alloc: Global,
        pass: &mut Pass,
        event: Event,
    ) -> Result<Reply, CallFault>
        requires pass { (pass.old.lock ≡ self.now) × (pass.old.has_turn ≡ false) }
        requires other { IsText event → ⊥ }
        ensures same { pass.new ≡ record pass.old { seen = pass.new.seen } }
        ensures ok { IfOk result (λ r. IsAnswered event r (MakesOne pass.old pass.new)) }
        ensures fails { IfErr result (λ f. CallFails event f pass.old pass.new) }
    {
        let Ok(mut turn) = self.lock.turn(rt, pass) else {
            return Err(CallFault::Spent(event));
        };
        match make(alloc, turn.state(), &event) {
            Ok(reply) => {
                give_event(&self.lock, pass, turn, &event);
                Ok(reply)
            }
            Err(NoMemory) => {
                turn.state().skip();
                give_other(&self.lock, pass, turn, Other::Skip);
                Err(CallFault::NoMemory(event))
            }
        }
    }

    /// Takes a job, where somebody is due. The entry is `take`, and the job or its absence is the machine's reply. The
    /// job is that of this take, and can be evaluated.
    ///
    /// `Spent`: all turns are taken; the pass has seen 2^62 entries. `NoMemory`: memory was refused; the entry is
    /// `skip`.
    pub fn take<R: Wait>(
        &self,
        rt: &R,
        alloc: Global,
        pass: &mut Pass,
    ) -> Result<Option<Job>, TakeFault>
        requires { (pass.old.lock ≡ self.now) × (pass.old.has_turn ≡ false) }
        ensures same { pass.new ≡ record pass.old { seen = pass.new.seen } }
        ensures ok { IfOk result (λ job. MakesOne pass.old pass.new Take (take_answer job)) }
        ensures job { IfOk result (λ job. IfJob pass.old.basis job (events pass.new.seen)) }
        ensures fails { IfErr result (λ f. TakeFails f pass.old pass.new) }
    {
        let Ok(mut turn) = self.lock.turn(rt, pass) else {
            return Err(TakeFault::Spent);
        };
        match turn.state().take(alloc) {
            Ok(job) => {
                give_other(&self.lock, pass, turn, Other::Take);
                Ok(job)
            }
            Err(NoMemory) => {
                turn.state().skip();
                give_other(&self.lock, pass, turn, Other::Skip);
                Err(TakeFault::NoMemory)
            }
        }
    }

    /// Publishes the answers of a job that was taken under an earlier turn. The entry is `publish`, and the reply, with
    /// the texts that are queued, is the machine's.
    ///
    /// `Spent`: all turns are taken; the pass has seen 2^62 entries. `NoMemory`: memory was refused; the entry is
    /// `skip`. The answers are handed back.
    pub fn publish<R: Wait>(
        &self,
        rt: &R,
        alloc: Global,
        pass: &mut Pass,
        answers: Answers,
    ) -> Result<PublishReply, PublishFault>
        requires pass { (pass.old.lock ≡ self.now) × (pass.old.has_turn ≡ false) }
        requires answers { AnswersOf pass.old.basis answers (events pass.old.seen) }
        ensures same { pass.new ≡ record pass.old { seen = pass.new.seen } }
        ensures ok { IfOk result (λ r. Publishes r (MakesOne pass.old pass.new (Publish answers.number))) }
        ensures fails { IfErr result (λ f. PublishFails answers f pass.old pass.new) }
    {
        let Ok(mut turn) = self.lock.turn(rt, pass) else {
            return Err(PublishFault::Spent(answers));
        };
        let number = answers.number();
        match turn.state().publish(alloc, answers) {
            Ok(reply) => {
                give_other(&self.lock, pass, turn, Other::Publish(number));
                Ok(reply)
            }
            Err(answers) => {
                turn.state().skip();
                give_other(&self.lock, pass, turn, Other::Skip);
                Err(PublishFault::NoMemory(answers))
            }
        }
    }
}
