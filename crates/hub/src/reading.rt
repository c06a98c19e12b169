//! What clients' texts say. Reading takes no hub, so it may come before one is asked.
ghost use Rattle.std.specs.Prelude.{◌≡◌, Option, Ok, Err, IfOk};
ghost use Rattle.serde_json.specs.View.{view};
ghost use Rattle.request_model.specs.Selection.{given_values};
ghost use Rattle.query_model.specs.Admission as query;
ghost use Rattle.query_model.specs.Admission.{Admits};
ghost use Rattle.plan_build.specs.Made.{IsMade};
ghost use Rattle.wire_model.specs.ClientMessages.{message};
ghost use Rattle.machine.specs.Messages.{Says};
ghost use Rattle.ws_message.specs.Meant.{meant};
ghost use Rattle.hub.specs.Readings.{IsReadAs, ReadsRequest};

use admission_laws::requests;
use gql_flat::Flat;
use json_out::Request;
use plan_build::{AdmitFault, Admitted, QueryFault, admit_selected, select};
use role_model::Session;
use role_schema::Meta;
use scalar_val::{NoMemory, Str};
use std::alloc::Global;
use std::marker::Model;
use ws_message::{ClientMsg, read_client};

/// What reading a request's text gave: its selection, or its first fault.
#[derive(Drop)]
pub(crate) enum Selection {
    Selected(Flat),
    Refused(QueryFault),
}

/// A client's message, and what reading its request gave, where it has one.
#[derive(Drop)]
pub(crate) struct Parts {
    pub(crate) msg: ClientMsg,
    pub(crate) selection: Option<Selection>,
}

/// What a client's text says. Contracts see it as the machine's message.
#[derive(Drop)]
pub struct Said {
    pub(crate) parts: Parts,
}

impl Model for Said {
    ghost use Rattle.machine.specs.Messages.{Message};

    ghost Value = { Message };

    ghost use Rattle.request_model.specs.contracts.flat.Flat as flat_row;
    ghost use Rattle.std.specs.Coded.{codes};
    ghost use Rattle.hub.specs.DataCodes.{coded_data, coded_members};

    ghost coded = { Prim.hlevel (codes, coded_data, coded_members, flat_row.the_row.coded) };

    ghost use Rattle.hub.specs.Readings.{said_of, IsReadAs};

    ghost view = { λ s. said_of s.parts.msg s.parts.selection };

    ghost invariant = { λ s. IsReadAs s.parts.msg s.parts.selection };
}

fn selection_of(alloc: Global, request: &Request) -> Result<Selection, NoMemory>
    ensures { IfOk result (ReadsRequest request.now) }
{
    match select(alloc, request) {
        Ok(flat) => Ok(Selection::Selected(flat)),
        Err(AdmitFault::Refused(fault)) => Ok(Selection::Refused(fault)),
        Err(AdmitFault::NoMemory) => Err(NoMemory),
    }
}

fn selection_in(alloc: Global, msg: &ClientMsg) -> Result<Option<Selection>, NoMemory>
    ensures { IfOk result (IsReadAs msg.now) }
{
    match msg {
        ClientMsg::Subscribe { request, .. } => Ok(Some(selection_of(alloc, request)?)),
        _ => Ok(None),
    }
}

pub(crate) fn read_parts(alloc: Global, text: &str) -> Result<Parts, NoMemory>
    ensures meant { IfOk result (λ parts. meant parts.msg ≡ message text.now) }
    ensures read { IfOk result (λ parts. IsReadAs parts.msg parts.selection) }
{
    let msg = read_client(alloc, text)?;
    let selection = selection_in(alloc, &msg)?;
    Ok(Parts { msg, selection })
}

impl Said {
    /// Reads a client's text, and its request where it subscribes. `NoMemory` where memory is refused.
    pub fn read(alloc: Global, text: &str) -> Result<Said, NoMemory>
        ensures { IfOk result (Says text.now) }
    {
        let parts = read_parts(alloc, text)?;
        Ok(Said { parts })
    }
}

fn copy_fault(alloc: Global, fault: &QueryFault) -> Result<QueryFault, NoMemory>
    ensures { IfOk result (λ copy. copy ≡ fault.now) }
{
    Ok(QueryFault {
        kind: fault.kind,
        at: fault.at,
        name: Str::of(alloc, fault.name.as_str())?,
    })
}

/// What a request comes to whose text is read.
pub(crate) fn admit_read(
    alloc: Global,
    meta: &Meta,
    session: &Session,
    request: &Request,
    selection: &Selection,
) -> Result<Admitted, AdmitFault>
    requires { ReadsRequest request.now selection.now }
    ensures ok { IfOk result (λ made. (a : query.Admitted)
        × Admits meta.now session.now request.now.query request.now.operation
        (given_values (view request.now.variables)) (Ok a) × IsMade meta.now a made) }
    ensures refused { (fault : QueryFault) → result ≡ Err (AdmitFault.Refused fault) →
        Admits meta.now session.now request.now.query request.now.operation
        (given_values (view request.now.variables)) (Err fault) }
{
    requests();
    match selection {
        Selection::Selected(flat) => admit_selected(alloc, meta, session, &request.variables, flat),
        Selection::Refused(fault) => Err(AdmitFault::Refused(copy_fault(alloc, fault)?)),
    }
}
