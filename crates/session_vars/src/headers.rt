//! The headers of a request, of which only the secret and the session variables are kept.

ghost use Rattle.std.specs.Prelude.{◌≡◌, [], None, nat_eq, codes, IfOk, OnOk, option_and_then, option_map};
ghost use Rattle.std.specs.List.{starts_with};
ghost use Rattle.std.specs.Str.{bytes_eq, str_to_ascii_lowercase};
ghost use Rattle.serde_json.specs.Find.{as_object, get};
ghost use Rattle.serde_json.specs.View.{view, members_view};
ghost use Rattle.role_model.specs.Sessions.{headers_of, lowered, secret_header};
ghost use Rattle.session_vars.specs.Kept.{kept_of, with_header, with_lowered};

use role_model::StrMap;
use scalar_val::{NoMemory, Str};
use serde_json::{Map, Value};
use std::alloc::Global;

/// What is kept of headers: the secret that they show, and the session variables. The role's header is one of these.
#[derive(Drop)]
pub struct Headers {
    pub secret: Option<Str>,
    pub vars: StrMap,
}

fn lowered_name(alloc: Global, name: &str) -> Result<Str, NoMemory>
    ensures { IfOk result (λ lowered. lowered ≡ str_to_ascii_lowercase name.now) }
{
    let mut name = String::from_str(alloc, name)?;
    name.make_ascii_lowercase();
    Ok(Str::from_string(name))
}

fn is_secret_header(name: &str) -> bool
    ensures { result ≡ bytes_eq name.now secret_header }
{
    name == "x-hasura-admin-secret"
}

fn has_prefix(name: &str) -> bool
    ensures { result ≡ starts_with nat_eq name.now (codes "x-hasura-") }
{
    name.as_bytes().starts_with(b"x-hasura-")
}

/// Keeps a header whose name is in lower case, in place of an earlier one of this name.
fn keep(alloc: Global, headers: &mut Headers, name: Str, value: &str) -> Result<(), NoMemory>
    ensures { OnOk result (headers.new ≡ with_lowered name value.now headers.old) }
{
    if is_secret_header(name.as_str()) {
        headers.secret = Some(Str::of(alloc, value)?);
        return Ok(());
    }
    if has_prefix(name.as_str()) {
        return headers.vars.insert(alloc, name, Str::of(alloc, value)?);
    }
    Ok(())
}

fn add(alloc: Global, headers: &mut Headers, name: &str, value: &Value) -> Result<(), NoMemory>
    ensures { OnOk result (headers.new ≡ with_header name.now (view value.now) headers.old) }
{
    match value {
        Value::String(value) => keep(alloc, headers, lowered_name(alloc, name)?, value.as_str()),
        _ => Ok(()),
    }
}

fn no_headers(alloc: Global) -> Headers
    ensures { result ≡ kept_of [] }
{
    Headers {
        secret: None,
        vars: StrMap::new(alloc),
    }
}

fn read_members(alloc: Global, members: &Map<String, Value>) -> Result<Headers, NoMemory>
    ensures { IfOk result (λ headers. headers ≡ kept_of (lowered (members_view members.now.entries) [])) }
{
    let mut headers = no_headers(alloc);
    'members: for (name, value) in members.iter() {
        add(alloc, &mut headers, name.as_str(), value)?;
    }
    Ok(headers)
}

fn members_in(payload: Option<&Value>) -> Option<&Map<String, Value>>
    ensures { option_map (λ m. members_view m.now.entries) result ≡ option_and_then as_object (option_and_then (get (codes "headers")) (option_map (λ v. view v.now) payload.entry)) }
{
    payload?.get("headers")?.as_object()
}

/// What is kept of the headers in a payload.
pub fn read_headers(alloc: Global, payload: Option<&Value>) -> Result<Headers, NoMemory>
    ensures { IfOk result (λ headers. headers ≡ kept_of (lowered (headers_of (option_map (λ v. view v.now) payload.entry)) [])) }
{
    match members_in(payload) {
        Some(members) => read_members(alloc, members),
        None => Ok(no_headers(alloc)),
    }
}
