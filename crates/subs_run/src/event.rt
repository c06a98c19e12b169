ghost use Rattle.std.specs.Prelude.{◌≡◌, ◌+◌, ◌*◌, ◌^◌, ◌<◌, ℕ, Some, List};
ghost use Rattle.data_model.specs.Form.{transaction};
ghost use Rattle.machine.specs.Messages.{Message};
ghost use Rattle.machine.specs.State as state;
ghost use Rattle.machine.specs.State.{Event};
ghost use Rattle.machine.specs.Run.{run};
ghost use Rattle.machine.specs.Transcript as transcript;
ghost use Rattle.machine.specs.Lines as lines;
ghost use Rattle.machine.specs.Lines.{read_line};
ghost use Rattle.machine.specs.Script as script;
ghost use Rattle.machine.specs.Script.{AllSay, act, acts, commits, opens, said_on, serves, serves_known};
ghost use Rattle.hub_model.specs.Stands.{StandsFor};
ghost use Rattle.script_text.specs.Said.{line_of};
ghost use Rattle.subs_run.specs.Events.{HubGoesOn, HubRan, LineRan, RunsOn, Steady};

use crate::jobs::{run_abandon, run_publish, run_take};
use crate::line_result::{LineResult, went};
use crate::poll::poll;
use crate::runner::Runner;
use hub::{CommitReply, ConnReply, DrainReply, Hub};
use scalar_val::{NoMemory, Steps};
use script_text::{
    Line, ScriptReason, read_line, write_binary, write_commit, write_done, write_empty, write_gone,
    write_open, write_recv, write_refused, write_report, write_sent, write_tick, write_timeout,
};
use std::alloc::Global;
use std::sync::ledger::Ledger;
use tx_apply::{Tx, TxTextFault, read_tx};

/// Runs one line behind the metadata, and appends its transcript.
pub(crate) fn run_line<L: Ledger>(
    runner: &mut Runner,
    alloc: Global,
    line: &[u8],
    out: &mut Vec<u8>,
    steps: &mut Steps<L>,
) -> LineResult
    requires stands { (h : List Event) × RunsOn runner.old.hub runner.old.jobs.items h }
    requires few { runner.old.hub.events + 1 + 2 * runner.old.hub.subscribed < 2 ^ 62 }
    ensures ran { (meant : List ℕ → Message) (h : List Event) → RunsOn runner.old.hub runner.old.jobs.items h →
        AllSay meant (said_on (run runner.old.hub.meta h) (read_line line.now)) →
        LineRan result (act meant runner.old.hub.meta (run runner.old.hub.meta h) (read_line line.now)) runner.old.hub
        runner.new.hub runner.new.jobs.items out.old.items out.new.items }
    ensures steady { Steady result runner.old.hub runner.new.hub runner.new.jobs.items }
{
    match read_line(line) {
        Some(line) => run_form(runner, alloc, line, out, steps),
        None => LineResult::Faulty(ScriptReason::NotEvent),
    }
}

/// Runs a line of one of the forms.
fn run_form<L: Ledger>(
    runner: &mut Runner,
    alloc: Global,
    line: Line<'_>,
    out: &mut Vec<u8>,
    steps: &mut Steps<L>,
) -> LineResult
    requires stands { (h : List Event) × RunsOn runner.old.hub runner.old.jobs.items h }
    requires few { runner.old.hub.events + 1 + 2 * runner.old.hub.subscribed < 2 ^ 62 }
    ensures ran { (meant : List ℕ → Message) (h : List Event) → RunsOn runner.old.hub runner.old.jobs.items h →
        AllSay meant (said_on (run runner.old.hub.meta h) (Some (line_of line.entry))) →
        LineRan result (acts meant runner.old.hub.meta (run runner.old.hub.meta h) (line_of line.entry))
        runner.old.hub runner.new.hub runner.new.jobs.items out.old.items out.new.items }
    ensures steady { Steady result runner.old.hub runner.new.hub runner.new.jobs.items }
{
    let hub = &mut runner.hub;
    match line {
        Line::Passed => LineResult::Went,
        Line::Open(conn) => run_open(hub, alloc, conn, out),
        Line::Receive { conn, text } => run_recv(hub, alloc, conn, text, out),
        Line::Binary(conn) => run_binary(hub, alloc, conn, out),
        Line::Timeout(conn) => run_timeout(hub, alloc, conn, out),
        Line::Gone(conn) => run_gone(hub, alloc, conn, out),
        Line::Drain(conn) => run_drain(hub, conn, out),
        Line::Commit(text) => run_commit(hub, alloc, text, out, steps),
        Line::Tick => run_tick(hub, out),
        Line::Report => run_report(hub, out),
        Line::Take => run_take(runner, alloc, out),
        Line::Publish(number) => run_publish(runner, alloc, number, out, steps),
        Line::Abandon(number) => run_abandon(runner, number, out),
        Line::Poll => run_poll(hub, alloc, out, steps),
    }
}

fn run_poll<L: Ledger>(
    hub: &mut Hub,
    alloc: Global,
    out: &mut Vec<u8>,
    steps: &mut Steps<L>,
) -> LineResult
    requires stands { (h : List Event) × StandsFor hub.old h }
    requires few { hub.old.events + 1 + 2 * hub.old.subscribed < 2 ^ 62 }
    ensures { (h : List Event) → StandsFor hub.old h →
        HubRan result (script.went hub.old.meta (transcript.poll hub.old.meta (run hub.old.meta h))) hub.old hub.new h
        out.old.items out.new.items }
{
    went(poll(hub, alloc, out, steps))
}

fn run_open(hub: &mut Hub, alloc: Global, conn: u32, out: &mut Vec<u8>) -> LineResult
    requires { hub.old.events < 2 ^ 62 }
    ensures { (h : List Event) → StandsFor hub.old h →
        HubRan result (opens hub.old.meta (run hub.old.meta h) conn) hub.old hub.new h out.old.items
        out.new.items }
{
    match hub.connect(alloc, conn) {
        Ok(ConnReply::Did(effect)) => went(write_open(out, conn, &effect.queued, &effect.closed)),
        Ok(ConnReply::ConnKnown) => LineResult::Faulty(ScriptReason::Known),
        Ok(ConnReply::ConnUnknown) => LineResult::Faulty(ScriptReason::Unknown),
        Err(NoMemory) => LineResult::NoMemory,
    }
}

fn run_recv(hub: &mut Hub, alloc: Global, conn: u32, text: &str, out: &mut Vec<u8>) -> LineResult
    requires { hub.old.events < 2 ^ 62 }
    ensures ran { (meant : List ℕ → Message) (h : List Event) → StandsFor hub.old h →
        AllSay meant (said_on (run hub.old.meta h) (Some (lines.Receive conn text.now))) →
        HubRan result (serves_known hub.old.meta (run hub.old.meta h) conn (state.Receive conn (meant text.now)))
        hub.old hub.new h out.old.items out.new.items }
    ensures goes_on { (h : List Event) → StandsFor hub.old h → HubGoesOn result hub.old hub.new h }
{
    match hub.recv(alloc, conn, text) {
        Ok(ConnReply::Did(effect)) => went(write_recv(out, conn, &effect.queued, &effect.closed)),
        Ok(ConnReply::ConnKnown) => LineResult::Faulty(ScriptReason::Known),
        Ok(ConnReply::ConnUnknown) => LineResult::Faulty(ScriptReason::Unknown),
        Err(NoMemory) => LineResult::NoMemory,
    }
}

fn run_binary(hub: &mut Hub, alloc: Global, conn: u32, out: &mut Vec<u8>) -> LineResult
    requires { hub.old.events < 2 ^ 62 }
    ensures { (h : List Event) → StandsFor hub.old h →
        HubRan result (serves_known hub.old.meta (run hub.old.meta h) conn (state.Binary conn)) hub.old hub.new h
        out.old.items out.new.items }
{
    match hub.binary(alloc, conn) {
        ConnReply::Did(effect) => went(write_binary(out, conn, &effect.queued, &effect.closed)),
        ConnReply::ConnKnown => LineResult::Faulty(ScriptReason::Known),
        ConnReply::ConnUnknown => LineResult::Faulty(ScriptReason::Unknown),
    }
}

fn run_timeout(hub: &mut Hub, alloc: Global, conn: u32, out: &mut Vec<u8>) -> LineResult
    requires { hub.old.events < 2 ^ 62 }
    ensures { (h : List Event) → StandsFor hub.old h →
        HubRan result (serves_known hub.old.meta (run hub.old.meta h) conn (state.Timeout conn)) hub.old hub.new h
        out.old.items out.new.items }
{
    match hub.timeout(alloc, conn) {
        ConnReply::Did(effect) => went(write_timeout(out, conn, &effect.queued, &effect.closed)),
        ConnReply::ConnKnown => LineResult::Faulty(ScriptReason::Known),
        ConnReply::ConnUnknown => LineResult::Faulty(ScriptReason::Unknown),
    }
}

fn run_gone(hub: &mut Hub, alloc: Global, conn: u32, out: &mut Vec<u8>) -> LineResult
    requires { hub.old.events < 2 ^ 62 }
    ensures { (h : List Event) → StandsFor hub.old h →
        HubRan result (serves_known hub.old.meta (run hub.old.meta h) conn (state.Gone conn)) hub.old hub.new h
        out.old.items out.new.items }
{
    match hub.gone(alloc, conn) {
        ConnReply::Did(effect) => went(write_gone(out, conn, &effect.queued, &effect.closed)),
        ConnReply::ConnKnown => LineResult::Faulty(ScriptReason::Known),
        ConnReply::ConnUnknown => LineResult::Faulty(ScriptReason::Unknown),
    }
}

fn run_drain(hub: &mut Hub, conn: u32, out: &mut Vec<u8>) -> LineResult
    requires { hub.old.events < 2 ^ 62 }
    ensures { (h : List Event) → StandsFor hub.old h →
        HubRan result (serves_known hub.old.meta (run hub.old.meta h) conn (state.Drain conn)) hub.old hub.new h
        out.old.items out.new.items }
{
    match hub.drain_one(conn) {
        DrainReply::Sent(text) => went(write_sent(out, conn, text.as_bytes())),
        DrainReply::Empty => went(write_empty(out, conn)),
        DrainReply::Done(reason) => went(write_done(out, conn, &reason)),
        DrainReply::ConnUnknown => LineResult::Faulty(ScriptReason::Unknown),
    }
}

fn run_tick(hub: &mut Hub, out: &mut Vec<u8>) -> LineResult
    requires { hub.old.events < 2 ^ 62 }
    ensures { (h : List Event) → StandsFor hub.old h →
        HubRan result (serves hub.old.meta (run hub.old.meta h) state.Tick) hub.old hub.new h out.old.items
        out.new.items }
{
    let due = hub.tick();
    went(write_tick(out, due))
}

fn run_report(hub: &mut Hub, out: &mut Vec<u8>) -> LineResult
    ensures { (h : List Event) → StandsFor hub.old h →
        HubRan result (serves hub.old.meta (run hub.old.meta h) state.Report) hub.old hub.new h out.old.items
        out.new.items }
{
    let counts = hub.report();
    went(write_report(out, counts))
}

fn run_commit<L: Ledger>(
    hub: &mut Hub,
    alloc: Global,
    text: &str,
    out: &mut Vec<u8>,
    steps: &mut Steps<L>,
) -> LineResult
    requires { hub.old.events < 2 ^ 62 }
    ensures { (h : List Event) → StandsFor hub.old h →
        HubRan result (commits hub.old.meta (run hub.old.meta h) (transaction text.now)) hub.old hub.new h out.old.items
        out.new.items }
{
    match read_tx(alloc, text) {
        Ok(tx) => commit(hub, alloc, &tx, out, steps),
        Err(TxTextFault::NotTransaction) => LineResult::Faulty(ScriptReason::Transaction),
        Err(TxTextFault::NoMemory) => LineResult::NoMemory,
    }
}

fn commit<L: Ledger>(
    hub: &mut Hub,
    alloc: Global,
    tx: &Tx,
    out: &mut Vec<u8>,
    steps: &mut Steps<L>,
) -> LineResult
    requires { hub.old.events < 2 ^ 62 }
    ensures { (h : List Event) → StandsFor hub.old h →
        HubRan result (serves hub.old.meta (run hub.old.meta h) (state.Commit tx.now)) hub.old hub.new h out.old.items
        out.new.items }
{
    match hub.commit(alloc, tx, steps) {
        Ok(CommitReply::Committed(version)) => went(write_commit(out, version)),
        Ok(CommitReply::Refused(fault)) => went(write_refused(out, fault)),
        Err(NoMemory) => LineResult::NoMemory,
    }
}
