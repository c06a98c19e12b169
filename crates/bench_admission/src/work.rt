use json_out::Request;
use plan_build::{AdmitFault, admit};
use role_model::{Identity, Session};
use role_schema::Meta;
use scalar_val::{NoMemory, Str};
use serde_json::Value;
use session_vars::identify;
use std::alloc::Global;

/// Why a run ends early: something that it makes is refused, or memory is.
#[derive(Debug, Drop)]
pub enum Fault {
    Refused,
    NoMemory,
}

impl From<NoMemory> for Fault {
    fn from(_: NoMemory) -> Fault {
        Fault::NoMemory
    }
}

const METADATA: &str = "version = 1
[[tables]]
name = \"user\"
key = [\"id\"]
columns = [{ name = \"id\", type = \"int\" }, { name = \"name\", type = \"text\", nullable = true }]
array = [{ name = \"posts\", table = \"post\", from = [\"id\"], to = [\"author_id\"] }]
select = [{ role = \"reader\", columns = [\"id\", \"name\"], filter = \"{}\" }]
[[tables]]
name = \"post\"
key = [\"id\"]
columns = [{ name = \"id\", type = \"int\" }, { name = \"author_id\", type = \"int\", nullable = true },
  { name = \"title\", type = \"text\" }, { name = \"note\", type = \"text\", nullable = true }]
object = [{ name = \"author\", table = \"user\", from = [\"author_id\"], to = [\"id\"] }]
select = [{ role = \"reader\", columns = [\"id\", \"author_id\", \"title\"],
  filter = '{\"author_id\":{\"_eq\":\"X-Hasura-User-Id\"}}' }]
";

/// Ten fields, a fragment, a condition, orders and two variables.
const QUERY: &str = "subscription Feed($n: Int = 2, $from: Int!) {
  user(order_by: [{id: asc}], limit: $n, where: {id: {_gte: $from}}) {
    ...U
    __typename
  }
}
fragment U on user {
  id
  name
  posts(order_by: {id: desc}, limit: 3) {
    id
    title
    author { name __typename }
  }
}
";

/// Who asks for what of which metadata.
#[derive(Drop)]
pub struct Client {
    meta: Meta,
    session: Session,
    request: Request,
}

fn json_of(alloc: Global, text: &str) -> Result<Value, Fault> {
    match Value::from_str(alloc, text) {
        Ok(value) => Ok(value),
        Err(_fault) => Err(Fault::Refused),
    }
}

fn reader(alloc: Global, meta: &Meta) -> Result<Session, Fault> {
    let payload = json_of(
        alloc,
        "{\"headers\":{\"x-hasura-role\":\"reader\",\"x-hasura-user-id\":\"1\"}}",
    )?;
    match identify(alloc, meta, Some(&payload))? {
        Identity::Allowed(session) => Ok(session),
        Identity::Forbidden => Err(Fault::Refused),
    }
}

/// A reader that asks for users with their posts.
pub fn usual_client(alloc: Global) -> Result<Client, Fault> {
    let Ok(meta) = Meta::read(alloc, METADATA.as_bytes()) else {
        return Err(Fault::Refused);
    };
    let session = reader(alloc, &meta)?;
    let request = Request {
        query: Str::of(alloc, QUERY)?,
        operation: Some(Str::of(alloc, "Feed")?),
        variables: json_of(alloc, "{\"n\":10,\"from\":1}")?,
    };
    Ok(Client {
        meta,
        session,
        request,
    })
}

/// Admits the client's request so many times.
pub fn admit_times(alloc: Global, client: &Client, times: u32) -> Result<(), Fault> {
    for _time in 0..times {
        match admit(alloc, &client.meta, &client.session, &client.request) {
            Ok(_admitted) => {}
            Err(AdmitFault::Refused(_fault)) => return Err(Fault::Refused),
            Err(AdmitFault::NoMemory) => return Err(Fault::NoMemory),
        }
    }
    Ok(())
}
