use crate::{Identity, identify};
use role_schema::Meta;
use serde_json::Value;
use std::alloc::Global;

const OPEN: &str = "version = 1\ntables = []\n";

const SECRET: &str = "version = 1\nadmin_secret = \"s3cret\"\ntables = []\n";

const EMPTY_SECRET: &str = "version = 1\nadmin_secret = \"\"\ntables = []\n";

const GUEST: &str =
    "version = 1\nadmin_secret = \"s3cret\"\nunauthorized_role = \"guest\"\ntables = []\n";

const OPEN_GUEST: &str = "version = 1\nunauthorized_role = \"guest\"\ntables = []\n";

/// The headers that the cases name, in lower case and as they were sent.
const NAMES: [&str; 10] = [
    "X-Hasura-User-Id",
    "authorization",
    "x-hasura",
    "x-hasura-",
    "x-hasura-admin-secret",
    "x-hasura-role",
    "x-hasura-user-id",
    "x-hasura-É",
    "x-hasura-é",
    "x-hasura_id",
];

/// The role, and each variable that is there.
fn shown(alloc: Global, identity: &Identity) -> Option<String> {
    let Identity::Allowed(session) = identity else {
        return String::from_str(alloc, "forbidden").ok();
    };
    let mut text = String::from_str(alloc, session.role.as_str()).ok()?;
    text.push_str(":").ok()?;
    for name in NAMES {
        if let Some(value) = session.vars.get(name) {
            text.push_str(" ").ok()?;
            text.push_str(name).ok()?;
            text.push_str("=").ok()?;
            text.push_str(value.as_str()).ok()?;
        }
    }
    Some(text)
}

/// Who a payload is, by its text; none where the text is empty.
fn identity(alloc: Global, metadata: &str, payload: &str) -> Option<Identity> {
    let meta = Meta::read(alloc, metadata.as_bytes()).ok()?;
    if payload.is_empty() {
        return identify(alloc, &meta, None).ok();
    }
    let value = Value::from_str(alloc, payload).ok()?;
    identify(alloc, &meta, Some(&value)).ok()
}

fn is_shown(alloc: Global, metadata: &str, payload: &str, want: &str) -> bool {
    match identity(alloc, metadata, payload) {
        Some(identity) => match shown(alloc, &identity) {
            Some(text) => text.as_str() == want,
            None => false,
        },
        None => false,
    }
}

#[test]
fn a_client_is_known_by_its_headers(rt: HostRuntime) {
    let alloc = rt.alloc();
    for (metadata, payload, want) in [
        // no headers
        (OPEN, "", "admin:"),
        (OPEN, "null", "admin:"),
        (OPEN, "[]", "admin:"),
        (OPEN, r#"{"x-hasura-role":"reader"}"#, "admin:"),
        (OPEN, r#"{"headers":null}"#, "admin:"),
        (OPEN, r#"{"headers":["x-hasura-role"]}"#, "admin:"),
        (OPEN, r#"{"headers":{}}"#, "admin:"),
        (OPEN_GUEST, "", "admin:"),
        // names in any case of letters, in ASCII alone
        (
            OPEN,
            r#"{"headers":{"X-HASURA-Role":"Reader","X-Hasura-User-Id":"7"}}"#,
            "Reader: x-hasura-role=Reader x-hasura-user-id=7",
        ),
        (
            OPEN,
            r#"{"headers":{"X-HASURA-É":"v"}}"#,
            "admin: x-hasura-É=v",
        ),
        // of several spellings the greatest by bytes, wherever it stands
        (
            OPEN,
            r#"{"headers":{"x-hasura-user-id":"1","X-Hasura-User-Id":"2"}}"#,
            "admin: x-hasura-user-id=1",
        ),
        (
            OPEN,
            r#"{"headers":{"X-Hasura-User-Id":"1","X-HASURA-USER-ID":"2"}}"#,
            "admin: x-hasura-user-id=1",
        ),
        (
            OPEN,
            r#"{"headers":{"X-HASURA-ROLE":"1","X-Hasura-Role":"2","X-HASURA-Role":"3"}}"#,
            "2: x-hasura-role=2",
        ),
        // values that aren't strings
        (
            OPEN,
            r#"{"headers":{"X-Hasura-Role":"reader","x-hasura-role":1,"x-hasura-user-id":null}}"#,
            "reader: x-hasura-role=reader",
        ),
        (
            OPEN,
            r#"{"headers":{"x-hasura-role":["reader"],"x-hasura-user-id":true}}"#,
            "admin:",
        ),
        // what is no session variable
        (
            OPEN,
            r#"{"headers":{"Authorization":"a","x-hasura":"b","x-hasura-":"c","x-hasura_id":"d"}}"#,
            "admin: x-hasura-=c",
        ),
        (
            OPEN,
            r#"{"headers":{"X-Hasura-Admin-Secret":"any","x-hasura-role":""}}"#,
            ": x-hasura-role=",
        ),
        // a secret
        (SECRET, "", "forbidden"),
        (SECRET, "null", "forbidden"),
        (
            SECRET,
            r#"{"headers":{"x-hasura-role":"reader"}}"#,
            "forbidden",
        ),
        (
            SECRET,
            r#"{"headers":{"X-Hasura-Admin-Secret":"s3cret","x-hasura-role":"reader"}}"#,
            "reader: x-hasura-role=reader",
        ),
        (
            SECRET,
            r#"{"headers":{"x-hasura-admin-secret":"s3cre"}}"#,
            "forbidden",
        ),
        (
            SECRET,
            r#"{"headers":{"x-hasura-admin-secret":"S3CRET"}}"#,
            "forbidden",
        ),
        (
            SECRET,
            r#"{"headers":{"x-hasura-admin-secret":["s3cret"]}}"#,
            "forbidden",
        ),
        (
            SECRET,
            r#"{"headers":{"x-hasura-admin-secret":"no","X-Hasura-Admin-Secret":"s3cret"}}"#,
            "forbidden",
        ),
        (
            SECRET,
            r#"{"headers":{"x-hasura-admin-secret":"s3cret","X-Hasura-Admin-Secret":"no"}}"#,
            "admin:",
        ),
        (EMPTY_SECRET, r#"{"headers":{}}"#, "forbidden"),
        (
            EMPTY_SECRET,
            r#"{"headers":{"x-hasura-admin-secret":""}}"#,
            "admin:",
        ),
        // an unauthorized role
        (GUEST, "", "guest:"),
        (
            GUEST,
            r#"{"headers":{"x-hasura-admin-secret":"no","x-hasura-role":"reader","x-hasura-user-id":"7"}}"#,
            "guest:",
        ),
        (
            GUEST,
            r#"{"headers":{"x-hasura-admin-secret":"s3cret","x-hasura-role":"reader","x-hasura-user-id":"7"}}"#,
            "reader: x-hasura-role=reader x-hasura-user-id=7",
        ),
    ] {
        assert!(rt; is_shown(alloc, metadata, payload, want), "{payload}");
    }
}
