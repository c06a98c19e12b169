ghost use Rattle.std.specs.Prelude.{◌≡◌, codes, unwrap_or, IfOk, option_map};
ghost use Rattle.std.specs.Option.{option_copied};
ghost use Rattle.serde_json.specs.View.{view};
ghost use Rattle.role_model.specs.Sessions as spec;
ghost use Rattle.role_model.specs.Sessions.{identity_of, role_header};
ghost use Rattle.role_model.specs.Texts.{Texts, value_of};
ghost use Rattle.session_vars.specs.Kept.{kept_of};

use crate::headers::{Headers, read_headers};
use role_model::{Identity, Session, StrMap};
use role_schema::Meta;
use scalar_val::{NoMemory, Str};
use serde_json::Value;
use std::alloc::Global;

fn shows(headers: &Headers, secret: &str) -> bool
    ensures { result ≡ spec.is_secret secret.now headers.now.secret }
{
    match &headers.secret {
        Some(shown) => shown.as_str() == secret,
        None => false,
    }
}

fn is_trusted(secret: Option<&str>, headers: &Headers) -> bool
    ensures { (found : Texts) → headers.now ≡ kept_of found → result ≡ spec.is_trusted (option_copied secret.entry) found }
{
    match secret {
        Some(secret) => shows(headers, secret),
        None => true,
    }
}

fn role_of(alloc: Global, vars: &StrMap) -> Result<Str, NoMemory>
    ensures { IfOk result (λ role. role ≡ unwrap_or (value_of role_header vars.now) (codes "admin")) }
{
    match vars.get("x-hasura-role") {
        Some(role) => Str::of(alloc, role.as_str()),
        None => Str::of(alloc, "admin"),
    }
}

fn trusted(alloc: Global, headers: Headers) -> Result<Identity, NoMemory>
    ensures { IfOk result (λ identity. identity ≡ Identity.Allowed (record { role = unwrap_or (value_of role_header headers.vars) (codes "admin"); vars = headers.vars })) }
{
    let Headers {
        secret: _secret,
        vars,
    } = headers;
    let role = role_of(alloc, &vars)?;
    Ok(Identity::Allowed(Session { role, vars }))
}

fn unauthorized(alloc: Global, role: Option<&str>) -> Result<Identity, NoMemory>
    ensures { IfOk result (λ identity. identity ≡ spec.unauthorized (option_copied role.entry)) }
{
    match role {
        Some(role) => Ok(Identity::Allowed(Session {
            role: Str::of(alloc, role)?,
            vars: StrMap::new(alloc),
        })),
        None => Ok(Identity::Forbidden),
    }
}

/// Who a connection acts for, by the payload of its `connection_init`, where there is one.
///
/// The headers are the object `headers` of the payload, and none where it isn't there or is no object. Their names are
/// taken in lower case (ASCII); of several spellings of a name the one that is greatest by bytes counts, and headers
/// whose values aren't strings are ignored. A request is trusted where no secret is configured, or the header
/// `x-hasura-admin-secret` equals it. A trusted request has the role of the header `x-hasura-role`, by default `admin`,
/// and as session variables all headers that begin with `x-hasura-` but the secret. Any other request has the
/// unauthorized role and no session variables, and is forbidden exactly where no such role is configured. `NoMemory`
/// where memory is refused.
pub fn identify(alloc: Global, meta: &Meta, payload: Option<&Value>) -> Result<Identity, NoMemory>
    ensures { IfOk result (λ identity. identity ≡ identity_of meta.now (option_map (λ v. view v.now) payload.entry)) }
{
    let headers = read_headers(alloc, payload)?;
    if is_trusted(meta.secret(), &headers) {
        trusted(alloc, headers)
    } else {
        unauthorized(alloc, meta.unauthorized_role())
    }
}
