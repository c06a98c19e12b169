//! What a work does.
ghost use Rattle.std.specs.Prelude.{◌≡◌, ◌<◌, ◌⊎◌, false, IfOk, IfErr};
ghost use Rattle.connection_server.specs.Talks.{link_view};
ghost use Rattle.subs_server.specs.Ports.{MayGoOn, ServedTo, ServesPort};
ghost use Rattle.subs_server.specs.Works.{Suits, WorksAlone};

use crate::task::{PortEnd, ServeWork, Task, TaskEnd, Worked};
use commit_server::{CommitEnd, serve_commits};
use connection_server::serve_conn;
use outside::{Accepted, Clock, Link, Listener, Opened, Opens, Parts, Splits, Work};
use polling_worker::poll_worker;
use scalar_val::Steps;
use std::alloc::Global;
use std::marker::Brand;
use std::sync::Wait;
use std::sync::ledger::{Blank, Ledger};
use subs_engine::{Engine, Gate, Pass, TakeFault};

/// Polls with a counter of its own.
fn poll_alone<R: Wait, C: Clock, G: Gate, L: Ledger>(
    rt: &R,
    alloc: Global,
    engine: &Engine,
    pass: &mut Pass,
    ticks: bool,
    refetch_ms: u32,
    clock: &mut C,
    gate: &G,
    blank: Blank,
) -> Result<G::Stop, TakeFault>
    requires name { blank.name ≡ L.name }
    requires parts { blank.parts ≡ L.parts }
    requires some { 0 < blank.parts }
    requires pass { (pass.old.lock ≡ engine.now) × (pass.old.has_turn ≡ false) }
    ensures { WorksAlone ticks refetch_ms pass.old pass.new (C.tells clock.old) (C.tells clock.new) result }
{
    let mut steps = Steps::<L>::new(blank);
    poll_worker(
        rt, alloc, engine, pass, ticks, refetch_ms, clock, gate, &mut steps,
    )
}

/// The next connection to the commit port may be taken; or this is how serving the port ends.
#[tactic(auto, using(crate::proofs::Porting::may_go_on))]
fn port_end(end: CommitEnd) -> Result<(), PortEnd>
    ensures goes_on { IfOk result (λ _. MayGoOn (ServedTo end)) }
    ensures ends { IfErr result (λ e. ((end ≡ CommitEnd.Spent) × (e ≡ PortEnd.Spent))
        ⊎ ((end ≡ CommitEnd.NoMemory) × (e ≡ PortEnd.NoMemory))) }
{
    match end {
        CommitEnd::Spent => Err(PortEnd::Spent),
        CommitEnd::NoMemory => Err(PortEnd::NoMemory),
        _ => Ok(()),
    }
}

impl<N, Q, C, G> Work for ServeWork<N, Q, C, G>
where
    N: Opens + Drop,
    N::Link: Drop,
    Q: Listener + Send + Drop + 'static,
    Q::Conn: Splits + Drop,
    <Q::Conn as Splits>::Source: Drop,
    <Q::Conn as Splits>::Sink: Drop,
    C: Clock + Send + Drop + 'static,
    G: Gate + Send + Drop + 'static,
{
    type Out = Worked<N::Link, Q, C, G::Stop>;

    ghost suits = { λ work answer. Suits
        (λ from. link_view (N.coming from) (N.sent from) (N.faults from))
        (λ link. link_view (N.Link.coming link) (N.Link.sent link) (N.Link.faults link))
        C.tells
        (λ from from' p q end. ServesPort Q.Conn.left Q.Conn.written Q.Conn.never_fails (Q.coming from) (Q.coming from')
        (Q.faults from) (Q.faults from') p q end)
        work.pass answer.pass work.task answer.end };

    #[tactic(auto, using(crate::proofs::Working::served_from, crate::proofs::Porting::serves_nothing, crate::proofs::Porting::serves_ended, crate::proofs::Porting::serves_fault))]
    fn run<R: Wait>(self, rt: &R) -> Self::Out {
        let ServeWork {
            alloc,
            engine,
            mut pass,
            task,
        } = self;
        match task {
            Task::Conn {
                conn,
                from,
                mut clock,
            } => {
                let mut link = match from.open_link() {
                    Opened::Link(link) => link,
                    Opened::Refused => return Worked {
                        pass,
                        end: TaskEnd::Shut,
                    },
                    Opened::NoMemory => return Worked {
                        pass,
                        end: TaskEnd::NoMemory,
                    },
                };
                let end = serve_conn(rt, alloc, &engine, &mut pass, conn, &mut link, &mut clock);
                Worked {
                    pass,
                    end: TaskEnd::Conn { link, clock, end },
                }
            }
            Task::Commits { mut from } => {
                for _ in rt.forever() {
                    let conn = match from.accept() {
                        Accepted::Conn(conn) => conn,
                        Accepted::End => return Worked {
                            pass,
                            end: TaskEnd::Commits {
                                from,
                                end: PortEnd::Ended,
                            },
                        },
                        Accepted::Failed => return Worked {
                            pass,
                            end: TaskEnd::Commits {
                                from,
                                end: PortEnd::Fault,
                            },
                        },
                    };
                    match conn.split() {
                        Parts::Both(mut source, mut sink) => {
                            let end = serve_commits(
                                rt,
                                alloc,
                                &engine,
                                &mut pass,
                                &mut source,
                                &mut sink,
                            );
                            match port_end(end) {
                                Ok(()) => continue,
                                Err(end) => return Worked {
                                    pass,
                                    end: TaskEnd::Commits { from, end },
                                },
                            }
                        }
                        Parts::Failed => continue,
                        Parts::NoMemory => return Worked {
                            pass,
                            end: TaskEnd::Commits {
                                from,
                                end: PortEnd::NoMemory,
                            },
                        },
                    }
                }
                unreachable!()
            }
            Task::Poll {
                ticks,
                refetch_ms,
                mut clock,
                gate,
            } => {
                let end = poll_alone::<R, C, G, Brand>(
                    rt,
                    alloc,
                    &engine,
                    &mut pass,
                    ticks,
                    refetch_ms,
                    &mut clock,
                    &gate,
                    Blank::new(1),
                );
                Worked {
                    pass,
                    end: TaskEnd::Poll { clock, end },
                }
            }
        }
    }
}
