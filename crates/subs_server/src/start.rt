//! Starting the works.
ghost use Rattle.std.specs.Prelude.{◌≡◌, ◌≤◌, false, IsSome};
ghost use Rattle.subs_server.specs.Mains.{IfPort, listener_view};
ghost use Rattle.subs_server.specs.Starting.{
  BeginsPolls,
  HasCause,
  Listening,
  ServesConns,
  StartsAs,
  StartsTask,
  WorksFrom,
};

use crate::task::{ServeWork, Task};
use outside::{Accepted, Clock, Listener, Opens, Spawner, Splits};
use role_schema::Meta;
use serve_words::ServeWords;
use std::alloc::Global;
use std::sync::Arc;
use subs_engine::{Engine, Gate, Pass};

/// Why not all works were started.
#[derive(Clone, Copy, Debug, PartialEq, Eq)]
pub(crate) enum StartEnd {
    NoMemory,
    ListenFault,
    SpawnFault,
}

/// Listens on both ports, and takes the listener for the commits out once it listens.
#[tactic(auto, using(crate::proofs::Serving::listens_on, crate::proofs::Serving::sockets_failed, crate::proofs::Serving::port_failed, crate::proofs::Serving::both_listen))]
fn listen_both<L: Listener, Q: Listener + Drop>(
    asked: &ServeWords,
    sockets: &mut L,
    commits: &mut Option<Q>,
) -> Result<Q, StartEnd>
    requires { IsSome commits.old }
    ensures listening { Listening (λ from. listener_view (Q.coming from) (Q.last_port from) (Q.faults from)) asked.now
        (listener_view (L.coming sockets.old) (L.last_port sockets.old) (L.faults sockets.old))
        (listener_view (L.coming sockets.new) (L.last_port sockets.new) (L.faults sockets.new))
        commits.old commits.new result }
    ensures later { L.faults sockets.old ≤ L.faults sockets.new }
{
    if !sockets.listen(asked.port) {
        return Err(StartEnd::ListenFault);
    }
    let Some(mut port) = commits.take() else {
        unreachable!();
    };
    if port.listen(asked.commit_port) {
        return Ok(port);
    }
    *commits = Some(port);
    Err(StartEnd::ListenFault)
}

/// Starts one work, with a pass of its own.
#[tactic(auto, using(crate::proofs::Starting::one_failed, crate::proofs::Starting::told_nothing))]
fn start_one<N, Q, C, G, P>(
    alloc: Global,
    engine: &Arc<Engine, Global>,
    pass: &mut Pass,
    spawner: &mut P,
    task: Task<N, Q, C, G>,
) -> Result<(), StartEnd>
where
    N: Opens + Drop,
    N::Link: Drop,
    Q: Listener + Send + Drop + 'static,
    Q::Conn: Splits + Drop,
    <Q::Conn as Splits>::Source: Drop,
    <Q::Conn as Splits>::Sink: Drop,
    C: Clock + Send + Drop + 'static,
    G: Gate + Send + Drop + 'static,
    P: Spawner<ServeWork<N, Q, C, G>>,
    requires { (pass.old.lock ≡ engine.now.value) × (pass.old.has_turn ≡ false) }
    ensures same { pass.new ≡ pass.old }
    ensures starts { StartsTask (P.started spawner.old) (P.started spawner.new) (P.faults spawner.old) (P.faults spawner.new)
        pass.old task result }
    ensures later { P.faults spawner.old ≤ P.faults spawner.new }
{
    let Ok(shared) = Arc::try_clone(engine) else {
        return Err(StartEnd::NoMemory);
    };
    let Ok(own) = engine.split(pass) else {
        return Err(StartEnd::NoMemory);
    };
    let work = ServeWork {
        alloc,
        engine: shared,
        pass: own,
        task,
    };
    if spawner.start(work) {
        return Ok(());
    }
    Err(StartEnd::SpawnFault)
}

/// Starts the works that poll, the first alone with ticks.
#[tactic(auto, using(crate::proofs::Starting::begins_nothing, crate::proofs::Starting::polls_more))]
fn start_workers<N, Q, C, G, P>(
    alloc: Global,
    engine: &Arc<Engine, Global>,
    pass: &mut Pass,
    spawner: &mut P,
    workers: u16,
    refetch_ms: u32,
    clock: C,
    gate: G,
) -> Result<(), StartEnd>
where
    N: Opens + Drop,
    N::Link: Drop,
    Q: Listener + Send + Drop + 'static,
    Q::Conn: Splits + Drop,
    <Q::Conn as Splits>::Source: Drop,
    <Q::Conn as Splits>::Sink: Drop,
    C: Clock + Copy + Send + Drop + 'static,
    G: Gate + Copy + Send + Drop + 'static,
    P: Spawner<ServeWork<N, Q, C, G>>,
    requires pass { (pass.old.lock ≡ engine.now.value) × (pass.old.has_turn ≡ false) }
    requires refetch { refetch_ms ≡ pass.old.basis.refetch_ms }
    ensures same { pass.new ≡ pass.old }
    ensures starts { BeginsPolls pass.old clock gate (P.started spawner.old) (P.started spawner.new) workers
        (P.faults spawner.old) (P.faults spawner.new) result }
    ensures later { P.faults spawner.old ≤ P.faults spawner.new }
{
    for worker in 0..workers {
        let ticks = worker == 0;
        let task = Task::Poll {
            ticks,
            refetch_ms,
            clock,
            gate,
        };
        match start_one(alloc, engine, pass, spawner, task) {
            Ok(()) => {}
            Err(end) => return Err(end),
        }
    }
    Ok(())
}

/// Starts a work for each connection that comes, with the numbers from 1 on.
#[tactic(auto, using(crate::proofs::Starting::counts_nothing, crate::proofs::Starting::counts_more, crate::proofs::Starting::counts_end, crate::proofs::Starting::counts_all))]
fn start_conns<L, Q, C, G, P>(
    alloc: Global,
    engine: &Arc<Engine, Global>,
    pass: &mut Pass,
    sockets: &mut L,
    spawner: &mut P,
    clock: C,
    gate: G,
) -> Result<(), StartEnd>
where
    L: Listener,
    L::Conn: Opens + Drop,
    <L::Conn as Opens>::Link: Drop,
    Q: Listener + Send + Drop + 'static,
    Q::Conn: Splits + Drop,
    <Q::Conn as Splits>::Source: Drop,
    <Q::Conn as Splits>::Sink: Drop,
    C: Clock + Copy + Send + Drop + 'static,
    G: Gate + Copy + Send + Drop + 'static,
    P: Spawner<ServeWork<L::Conn, Q, C, G>>,
    requires { (pass.old.lock ≡ engine.now.value) × (pass.old.has_turn ≡ false) }
    ensures { ServesConns pass.old clock gate
        (listener_view (L.coming sockets.old) (L.last_port sockets.old) (L.faults sockets.old))
        (listener_view (L.coming sockets.new) (L.last_port sockets.new) (L.faults sockets.new))
        (P.started spawner.old) (P.started spawner.new) (P.faults spawner.old) (P.faults spawner.new) result }
{
    let _gate = gate;
    for numbered in 0..u32::MAX {
        match sockets.accept() {
            Accepted::Conn(from) => {
                let task = Task::Conn {
                    conn: numbered + 1,
                    from,
                    clock,
                };
                match start_one(alloc, engine, pass, spawner, task) {
                    Ok(()) => {}
                    Err(end) => return Err(end),
                }
            }
            Accepted::End => return Ok(()),
            Accepted::Failed => return Err(StartEnd::ListenFault),
        }
    }
    Ok(())
}

/// Starts all works over an engine: first those that poll, then the one that takes commits, and then one for each
/// connection.
#[tactic(auto, using(crate::proofs::Starting::works_polls, crate::proofs::Starting::works_commits, crate::proofs::Starting::works_conns))]
fn start_over<L, Q, C, G, P>(
    alloc: Global,
    engine: &Arc<Engine, Global>,
    pass: &mut Pass,
    workers: u16,
    refetch_ms: u32,
    sockets: &mut L,
    from: Q,
    spawner: &mut P,
    clock: C,
    gate: G,
) -> Result<(), StartEnd>
where
    L: Listener,
    L::Conn: Opens + Drop,
    <L::Conn as Opens>::Link: Drop,
    Q: Listener + Send + Drop + 'static,
    Q::Conn: Splits + Drop,
    <Q::Conn as Splits>::Source: Drop,
    <Q::Conn as Splits>::Sink: Drop,
    C: Clock + Copy + Send + Drop + 'static,
    G: Gate + Copy + Send + Drop + 'static,
    P: Spawner<ServeWork<L::Conn, Q, C, G>>,
    requires pass { (pass.old.lock ≡ engine.now.value) × (pass.old.has_turn ≡ false) }
    requires refetch { refetch_ms ≡ pass.old.basis.refetch_ms }
    ensures { WorksFrom workers from pass.old.basis clock gate
        (listener_view (L.coming sockets.old) (L.last_port sockets.old) (L.faults sockets.old))
        (listener_view (L.coming sockets.new) (L.last_port sockets.new) (L.faults sockets.new))
        (P.started spawner.old) (P.started spawner.new) (P.faults spawner.old) (P.faults spawner.new) result }
{
    match start_workers(
        alloc, engine, pass, spawner, workers, refetch_ms, clock, gate,
    ) {
        Ok(()) => {}
        Err(end) => return Err(end),
    }
    match start_one(alloc, engine, pass, spawner, Task::Commits { from }) {
        Ok(()) => {}
        Err(end) => return Err(end),
    }
    start_conns(alloc, engine, pass, sockets, spawner, clock, gate)
}

/// Makes the engine, and starts all works over it.
#[tactic(auto, using(crate::proofs::Starting::works_none, crate::proofs::Starting::works_of))]
fn start_works<L, Q, C, G, P>(
    alloc: Global,
    workers: u16,
    meta: Meta,
    sockets: &mut L,
    from: Q,
    spawner: &mut P,
    clock: C,
    gate: G,
) -> Result<(), StartEnd>
where
    L: Listener,
    L::Conn: Opens + Drop,
    <L::Conn as Opens>::Link: Drop,
    Q: Listener + Send + Drop + 'static,
    Q::Conn: Splits + Drop,
    <Q::Conn as Splits>::Source: Drop,
    <Q::Conn as Splits>::Sink: Drop,
    C: Clock + Copy + Send + Drop + 'static,
    G: Gate + Copy + Send + Drop + 'static,
    P: Spawner<ServeWork<L::Conn, Q, C, G>>,
    ensures { WorksFrom workers from meta clock gate
        (listener_view (L.coming sockets.old) (L.last_port sockets.old) (L.faults sockets.old))
        (listener_view (L.coming sockets.new) (L.last_port sockets.new) (L.faults sockets.new))
        (P.started spawner.old) (P.started spawner.new) (P.faults spawner.old) (P.faults spawner.new) result }
{
    let refetch_ms = meta.refetch_ms();
    let Ok((engine, mut pass)) = Engine::new(alloc, meta) else {
        return Err(StartEnd::NoMemory);
    };
    let Ok(engine) = Arc::new(alloc, engine) else {
        return Err(StartEnd::NoMemory);
    };
    start_over(
        alloc, &engine, &mut pass, workers, refetch_ms, sockets, from, spawner, clock, gate,
    )
}

/// Listens on both ports, and starts all works.
#[tactic(auto, using(crate::proofs::Serving::starts_unlistened, crate::proofs::Serving::cause_listening, crate::proofs::Serving::has_cause))]
pub(crate) fn start_all<L, Q, C, G, P>(
    alloc: Global,
    asked: ServeWords,
    meta: Meta,
    sockets: &mut L,
    commits: &mut Option<Q>,
    spawner: &mut P,
    clock: C,
    gate: G,
) -> Result<(), StartEnd>
where
    L: Listener,
    L::Conn: Opens + Drop,
    <L::Conn as Opens>::Link: Drop,
    Q: Listener + Send + Drop + 'static,
    Q::Conn: Splits + Drop,
    <Q::Conn as Splits>::Source: Drop,
    <Q::Conn as Splits>::Sink: Drop,
    C: Clock + Copy + Send + Drop + 'static,
    G: Gate + Copy + Send + Drop + 'static,
    P: Spawner<ServeWork<L::Conn, Q, C, G>>,
    requires { IsSome commits.old }
    ensures starts { IfPort commits.old (λ port. StartsAs
        (λ from. listener_view (Q.coming from) (Q.last_port from) (Q.faults from)) asked meta
        (listener_view (L.coming sockets.old) (L.last_port sockets.old) (L.faults sockets.old))
        (listener_view (L.coming sockets.new) (L.last_port sockets.new) (L.faults sockets.new))
        port clock gate (P.started spawner.old) (P.started spawner.new) result) }
    ensures caused { HasCause Q.faults commits.old commits.new (L.faults sockets.old) (L.faults sockets.new)
        (P.faults spawner.old) (P.faults spawner.new) result }
{
    match listen_both(&asked, sockets, commits) {
        Ok(from) => start_works(
            alloc,
            asked.workers,
            meta,
            sockets,
            from,
            spawner,
            clock,
            gate,
        ),
        Err(end) => Err(end),
    }
}
