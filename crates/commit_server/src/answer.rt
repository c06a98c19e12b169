//! One line, and its answer.
ghost use Rattle.std.specs.Prelude.{◌≡◌, ◌≢◌, ◌++◌, ◌∷◌, [], false, codes, OnOk, None, Some};
ghost use Rattle.data_model.specs.declared.transaction.TxChange.{TxChange};
ghost use Rattle.commit_server.specs.Answers.{transaction_in};
ghost use Rattle.commit_server.specs.Commits.{sink_view};
ghost use Rattle.commit_server.specs.Parts.{AnswersLine, CommitsTx, RepliesTo};

use crate::end::CommitEnd;
use crate::put::write_text;
use outside::Sink;
use scalar_val::NoMemory;
use script_text::{write_commit, write_refused};
use std::alloc::Global;
use std::sync::Wait;
use subs_engine::{CallFault, CommitReply, Engine, Event, Pass, Reply};
use tx_apply::{Tx, TxTextFault, read_tx};

/// Appends the answer to a line that is no transaction.
fn write_bad(out: &mut Vec<u8>) -> Result<(), NoMemory>
    ensures { OnOk result (out.new.items ≡ out.old.items ++ (codes "bad" ++ 10 ∷ [])) }
{
    out.extend_from_slice(b"bad\n")?;
    Ok(())
}

/// Commits a transaction, and makes its answer.
#[tactic(auto, using(crate::proofs::Answering::fails_made, crate::proofs::Answering::fails_skip))]
fn commit<R: Wait>(
    rt: &R,
    alloc: Global,
    engine: &Engine,
    pass: &mut Pass,
    tx: Tx,
    out: &mut Vec<u8>,
) -> Result<(), CommitEnd>
    requires pass { (pass.old.lock ≡ engine.now) × (pass.old.has_turn ≡ false) }
    requires out { out.old.items ≡ [] }
    ensures { CommitsTx pass.old pass.new tx out.new.items result }
{
    match engine.call(rt, alloc, pass, Event::Commit(tx)) {
        Ok(Reply::Commit(CommitReply::Committed(version))) => match write_commit(out, version) {
            Ok(()) => return Ok(()),
            Err(NoMemory) => return Err(CommitEnd::NoMemory),
        },
        Ok(Reply::Commit(CommitReply::Refused(fault))) => match write_refused(out, fault) {
            Ok(()) => return Ok(()),
            Err(NoMemory) => return Err(CommitEnd::NoMemory),
        },
        Ok(_) => unreachable!(),
        Err(CallFault::Spent(_)) => return Err(CommitEnd::Spent),
        Err(CallFault::NoMemory(_)) => return Err(CommitEnd::NoMemory),
    }
}

/// What a line is: a transaction, or none.
#[tactic(auto, using(crate::proofs::Answering::not_text, crate::proofs::Answering::is_text))]
fn read_line(alloc: Global, line: &[u8]) -> Result<Option<Tx>, NoMemory>
    ensures { OnOk result (result ≡ Ok (transaction_in line.now)) }
{
    let Ok(text) = str::from_utf8(line) else {
        return Ok(None);
    };
    match read_tx(alloc, text) {
        Ok(tx) => Ok(Some(tx)),
        Err(TxTextFault::NotTransaction) => Ok(None),
        Err(TxTextFault::NoMemory) => Err(NoMemory),
    }
}

/// Does what a line asks for, and makes its answer.
#[tactic(auto, using(crate::proofs::Answering::replies_commit, crate::proofs::Answering::replies_bad, crate::proofs::Answering::stops_early, crate::proofs::Answering::stops_commit))]
fn reply_to<R: Wait>(
    rt: &R,
    alloc: Global,
    engine: &Engine,
    pass: &mut Pass,
    line: &[u8],
    out: &mut Vec<u8>,
) -> Result<(), CommitEnd>
    requires pass { (pass.old.lock ≡ engine.now) × (pass.old.has_turn ≡ false) }
    requires out { out.old.items ≡ [] }
    ensures { RepliesTo pass.old pass.new line.now out.new.items result }
{
    match read_line(alloc, line) {
        Ok(Some(tx)) => match commit(rt, alloc, engine, pass, tx, out) {
            Ok(()) => return Ok(()),
            Err(end) => return Err(end),
        },
        Ok(None) => match write_bad(out) {
            Ok(()) => return Ok(()),
            Err(NoMemory) => return Err(CommitEnd::NoMemory),
        },
        Err(NoMemory) => return Err(CommitEnd::NoMemory),
    }
}

/// Does what a line asks for, and writes its answer.
#[tactic(auto, using(crate::proofs::Answering::answers_written, crate::proofs::Answering::stops_writing))]
pub(crate) fn answer_line<R: Wait, K: Sink>(
    rt: &R,
    alloc: Global,
    engine: &Engine,
    pass: &mut Pass,
    sink: &mut K,
    line: &[u8],
) -> Result<(), CommitEnd>
    requires { (pass.old.lock ≡ engine.now) × (pass.old.has_turn ≡ false) }
    ensures answers { AnswersLine pass.old pass.new (sink_view (K.written sink.old) (K.faults sink.old))
        (sink_view (K.written sink.new) (K.faults sink.new)) line.now result }
    ensures steady { K.never_fails sink.old → K.never_fails sink.new × (result ≢ Err CommitEnd.SinkFault) }
{
    let mut out = Vec::new(alloc);
    match reply_to(rt, alloc, engine, pass, line, &mut out) {
        Ok(()) => {}
        Err(end) => return Err(end),
    }
    match write_text(sink, &out) {
        Ok(()) => return Ok(()),
        Err(end) => return Err(end),
    }
}
