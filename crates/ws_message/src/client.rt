ghost use Rattle.std.specs.Prelude.{◌≡◌, IfOk, Some, codes, option_map, option_and_then};
ghost use Rattle.serde_json.specs.Find.{as_str};
ghost use Rattle.serde_json.specs.View.{view, members_view};
ghost use Rattle.wire_model.specs.ClientMessages as client;
ghost use Rattle.data_model.specs.JsonParts.{required};
ghost use Rattle.wire_model.specs.ClientMessages.{
  init_form,
  subscribe_form,
  complete_form,
  bare_form,
  form_by_type,
  message,
  message_of,
  request_form,
  request_of,
};
ghost use Rattle.ws_message.specs.Forms.{kind_named, kind_found, form_of_kind};
ghost use Rattle.ws_message.specs.Meant.{meant, request_meant};

use crate::members::{take, take_optional_object, take_optional_text, take_text};
use data_model::member;
use json_out::Request;
use scalar_val::{NoMemory, Str};
use serde_json::{Map, Value};
use std::alloc::Global;

/// The most bytes that a client's text has.
const MOST_BYTES: usize = 1_048_576;

/// What a client says.
#[derive(Debug, Drop)]
pub enum ClientMsg {
    /// `connection_init`, with its payload, an object, where there is one.
    Init(Option<Value>),
    Subscribe { id: Str, request: Request },
    Complete { id: Str },
    Ping,
    Pong,
    /// A text that is none of the messages.
    Bad,
}

/// The types of messages.
#[derive(Clone, Copy, Debug)]
enum Kind {
    Init,
    Subscribe,
    Complete,
    Ping,
    Pong,
}

fn kind_named(name: &str) -> Option<Kind>
    ensures { result ≡ kind_named name.now }
{
    match name {
        "connection_init" => Some(Kind::Init),
        "subscribe" => Some(Kind::Subscribe),
        "complete" => Some(Kind::Complete),
        "ping" => Some(Kind::Ping),
        "pong" => Some(Kind::Pong),
        _ => None,
    }
}

fn kind_of_value(value: &Value) -> Option<Kind>
    ensures { result ≡ option_and_then kind_named (as_str (view value.now)) }
{
    match value {
        Value::String(name) => kind_named(name.as_str()),
        _ => None,
    }
}

fn kind_of(map: &Map<String, Value>) -> Option<Kind>
    ensures { result ≡ kind_found (members_view map.now.entries) }
{
    match member(map, "type") {
        Some(value) => kind_of_value(value),
        None => None,
    }
}

fn read_request(mut map: Map<String, Value>) -> Option<Request>
    ensures { option_map request_meant result ≡ request_form (members_view map.entries) }
{
    let query = take_text(&mut map, "query")?;
    let operation = take_optional_text(&mut map, "operationName")?;
    let variables = take_optional_object(&mut map, "variables")?;
    let _extensions = take_optional_object(&mut map, "extensions")?;
    let variables = match variables {
        Some(object) => object,
        None => Value::Null,
    };
    Some(Request {
        query,
        operation,
        variables,
    })
}

fn read_payload(payload: Value) -> Option<Request>
    ensures { option_map request_meant result ≡ request_of (view payload) }
{
    match payload {
        Value::Object(map) => read_request(map),
        _ => None,
    }
}

fn read_init(mut map: Map<String, Value>) -> Option<ClientMsg>
    ensures { option_map meant result ≡ init_form (members_view map.entries) }
{
    let payload = take_optional_object(&mut map, "payload")?;
    Some(ClientMsg::Init(payload))
}

fn read_subscribe(mut map: Map<String, Value>) -> Option<ClientMsg>
    ensures { option_map meant result ≡ subscribe_form (members_view map.entries) }
{
    let id = take_text(&mut map, "id")?;
    let payload = take(&mut map, "payload")?;
    let request = read_payload(payload)?;
    Some(ClientMsg::Subscribe { id, request })
}

fn read_complete(mut map: Map<String, Value>) -> Option<ClientMsg>
    ensures { option_map meant result ≡ complete_form (members_view map.entries) }
{
    let id = take_text(&mut map, "id")?;
    Some(ClientMsg::Complete { id })
}

/// A message whose payload says nothing.
fn read_bare(mut map: Map<String, Value>, msg: ClientMsg) -> Option<ClientMsg>
    ensures { option_map meant result ≡ bare_form (meant msg) (members_view map.entries) }
{
    let _payload = take_optional_object(&mut map, "payload")?;
    Some(msg)
}

fn read_form(kind: Kind, map: Map<String, Value>) -> Option<ClientMsg>
    ensures { option_map meant result ≡ form_of_kind kind (members_view map.entries) }
{
    match kind {
        Kind::Init => read_init(map),
        Kind::Subscribe => read_subscribe(map),
        Kind::Complete => read_complete(map),
        Kind::Ping => read_bare(map, ClientMsg::Ping),
        Kind::Pong => read_bare(map, ClientMsg::Pong),
    }
}

#[tactic(auto, using(crate::proofs::ByType::form_by_kind))]
fn read_object(map: Map<String, Value>) -> Option<ClientMsg>
    ensures { option_map meant result ≡ form_by_type (members_view map.entries) }
{
    match kind_of(&map) {
        Some(kind) => read_form(kind, map),
        None => None,
    }
}

fn read_value(value: Value) -> ClientMsg
    ensures { meant result ≡ message_of (Some (view value)) }
{
    match value {
        Value::Object(map) => match read_object(map) {
            Some(msg) => msg,
            None => ClientMsg::Bad,
        },
        _ => ClientMsg::Bad,
    }
}

/// Reads a client's text. It is JSON; of a key that an object has twice the last value counts. A text of more than
/// 1,048,576 bytes, or that is none of the messages, is `Bad`.
pub fn read_client(alloc: Global, text: &str) -> Result<ClientMsg, NoMemory>
    ensures { IfOk result (λ msg. meant msg ≡ message text.now) }
{
    if text.len() > MOST_BYTES {
        return Ok(ClientMsg::Bad);
    }
    match Value::from_str(alloc, text) {
        Ok(value) => Ok(read_value(value)),
        Err(error) => {
            if error.is_memory() {
                return Err(NoMemory);
            }
            Ok(ClientMsg::Bad)
        }
    }
}
