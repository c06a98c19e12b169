ghost use Rattle.std.specs.Prelude.{◌≡◌, IfOk};
ghost use Rattle.plan_model.specs.PlanFits.{PlanFits};
ghost use Rattle.plan_model.specs.BindingFits.{BindingFits};

use json_out::Request;
use nested_eval::eval;
use plan_build::{AdmitFault, Admitted, QueryFault, admit, fault_code, fault_text};
use role_model::{Identity, Session};
use role_schema::Meta;
use row_store::Snapshot;
use scalar_val::{Steps, Str};
use serde_json::Value;
use session_vars::identify;
use std::alloc::Global;
use std::sync::ledger::{Blank, Ledger};
use std::test::Fail;
use tx_apply::{apply, read_tx};

/// Users, of whom no role is told.
pub const USERS: &str = "version = 1
[[tables]]
name = \"user\"
key = [\"id\"]
columns = [{ name = \"id\", type = \"int\" }, { name = \"name\", type = \"text\", nullable = true }]
";

/// Users and posts, and a reader, who sees the posts of its own alone.
pub const POSTS: &str = "version = 1
[[tables]]
name = \"user\"
key = [\"id\"]
columns = [{ name = \"id\", type = \"int\" }, { name = \"name\", type = \"text\", nullable = true }]
array = [{ name = \"posts\", table = \"post\", from = [\"id\"], to = [\"author_id\"] }]
select = [{ role = \"reader\", columns = [\"id\", \"name\"], filter = \"{}\" }]
[[tables]]
name = \"post\"
key = [\"id\"]
columns = [{ name = \"id\", type = \"int\" }, { name = \"author_id\", type = \"int\", nullable = true },
  { name = \"title\", type = \"text\" }, { name = \"note\", type = \"text\", nullable = true }]
object = [{ name = \"author\", table = \"user\", from = [\"author_id\"], to = [\"id\"] }]
select = [{ role = \"reader\", columns = [\"id\", \"author_id\", \"title\"],
  filter = '{\"author_id\":{\"_eq\":\"X-Hasura-User-Id\"}}' }]
";

/// Who asks: no headers, which is the role `admin`, a reader of a user, and one of no user.
pub const ADMIN: &str = "{}";

pub const READER_1: &str =
    "{\"headers\":{\"x-hasura-role\":\"reader\",\"x-hasura-user-id\":\"1\"}}";

pub const READER_2: &str =
    "{\"headers\":{\"x-hasura-role\":\"reader\",\"x-hasura-user-id\":\"2\"}}";

pub fn meta_of(alloc: Global, text: &str) -> Result<Meta, Fail> {
    match Meta::read(alloc, text.as_bytes()) {
        Ok(meta) => Ok(meta),
        Err(_fault) => Err(Fail::from("the metadata isn't read")),
    }
}

fn json_of(alloc: Global, text: &str) -> Result<Value, Fail> {
    match Value::from_str(alloc, text) {
        Ok(value) => Ok(value),
        Err(_fault) => Err(Fail::from("the text isn't JSON")),
    }
}

fn session_of(alloc: Global, meta: &Meta, payload: &str) -> Result<Session, Fail> {
    let payload = json_of(alloc, payload)?;
    match identify(alloc, meta, Some(&payload))? {
        Identity::Allowed(session) => Ok(session),
        Identity::Forbidden => Err(Fail::from("forbidden")),
    }
}

/// A request with its variables.
#[derive(Clone, Copy)]
pub struct Asked {
    pub payload: &'static str,
    pub query: &'static str,
    pub variables: &'static str,
}

fn admitted(alloc: Global, meta: &Meta, asked: Asked) -> Result<Result<Admitted, AdmitFault>, Fail>
    ensures { IfOk result (λ answer. IfOk answer (λ made. PlanFits meta.now.catalog made.plan × BindingFits made.plan made.binding)) }
{
    let session = session_of(alloc, meta, asked.payload)?;
    let request = Request {
        query: Str::of(alloc, asked.query)?,
        operation: None,
        variables: json_of(alloc, asked.variables)?,
    };
    Ok(admit(alloc, meta, &session, &request))
}

/// The code, a space and the message.
fn refusal_text(alloc: Global, fault: &QueryFault) -> Result<String, Fail> {
    let mut text = String::new(alloc);
    text.push_str(fault_code(fault.kind))?;
    text.push_str(" ")?;
    text.push_str(fault_text(alloc, fault)?.as_str())?;
    Ok(text)
}

/// The refusal of a request, or `admitted`.
pub fn refusal(alloc: Global, meta: &Meta, asked: Asked) -> Result<String, Fail> {
    match admitted(alloc, meta, asked)? {
        Ok(_admitted) => Ok(String::from_str(alloc, "admitted")?),
        Err(AdmitFault::Refused(fault)) => refusal_text(alloc, &fault),
        Err(AdmitFault::NoMemory) => Err(Fail::from("no memory")),
    }
}

/// The snapshot after transactions, in order, on empty tables.
#[tactic(auto, using(hub::proofs::Numbered::catalog_numbered))]
pub fn snapshot_after<L: Ledger>(
    alloc: Global,
    meta: &Meta,
    transactions: &[&str],
    steps: &mut Steps<L>,
) -> Result<Snapshot, Fail>
    ensures { IfOk result (λ snapshot. snapshot.catalog ≡ meta.now.catalog) }
{
    let mut snapshot = Snapshot::new(alloc, meta.catalog())?;
    for text in transactions {
        snapshot = committed(alloc, meta, &snapshot, text, steps)?;
    }
    Ok(snapshot)
}

fn committed<L: Ledger>(
    alloc: Global,
    meta: &Meta,
    snapshot: &Snapshot,
    text: &str,
    steps: &mut Steps<L>,
) -> Result<Snapshot, Fail>
    requires { snapshot.now.catalog ≡ meta.now.catalog }
    ensures { IfOk result (λ after. after.catalog ≡ meta.now.catalog) }
{
    let Ok(tx) = read_tx(alloc, text) else {
        return Err(Fail::from("no transaction"));
    };
    match apply(alloc, meta.catalog(), snapshot, &tx, steps) {
        Ok(after) => Ok(after),
        Err(_fault) => Err(Fail::from("the transaction is refused")),
    }
}

/// The payload of a request's result on a snapshot, or its refusal.
pub fn payload(
    alloc: Global,
    meta: &Meta,
    snapshot: &Snapshot,
    asked: Asked,
) -> Result<String, Fail>
    requires { snapshot.now.catalog ≡ meta.now.catalog }
{
    match admitted(alloc, meta, asked)? {
        Ok(admitted) => {
            let outcome = eval(alloc, &admitted.plan, &admitted.binding, snapshot)?;
            match String::from_utf8(outcome.text.into_vec()) {
                Ok(text) => Ok(text),
                Err(_bytes) => Err(Fail::from("no UTF-8")),
            }
        }
        Err(AdmitFault::Refused(fault)) => refusal_text(alloc, &fault),
        Err(AdmitFault::NoMemory) => Err(Fail::from("no memory")),
    }
}
