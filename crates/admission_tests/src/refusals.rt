use crate::world::{ADMIN, Asked, POSTS, USERS, meta_of, refusal};
use std::test::Fail;

/// Requests on users by an administrator, each with its code and its message.
const REFUSED: &[(&str, &str)] = &[
    (
        "subscription { user { id } ",
        "Syntax syntax error at byte 27",
    ),
    ("subscription { usr { id } }", "NoField no such field: usr"),
    (
        "subscription { user(limt: 1) { id } }",
        "NoArgument bad argument: limt",
    ),
    (
        "subscription { user(limit: -1) { id } }",
        "WrongType wrong type: limit",
    ),
    (
        "subscription { user(where: {id: {_eq: null}}) { id } }",
        "NullOperand null operand: id",
    ),
    (
        "subscription($i: Int!) { user_by_pk(id: $i) { id } }",
        "MissingVariable missing variable: i",
    ),
    (
        "subscription { user_stream(batch_size: 1, cursor: {initial_value: {name: \"a\"}}) { id } }",
        "BadCursor bad cursor: cursor",
    ),
    (
        "subscription { user { id } user_by_pk(id: 1) { id } }",
        "NotOneRoot one root field needed",
    ),
    (
        "mutation { user { id } }",
        "NotServed operation type not served",
    ),
    ("subscription { ...F }", "UnknownFragment no such fragment"),
    ("subscription { user { id } }", "admitted"),
];

#[test]
fn a_request_is_refused_with_its_first_fault(rt: HostRuntime) -> Result<(), Fail> {
    let alloc = rt.alloc();
    let meta = meta_of(alloc, USERS)?;
    for (query, wanted) in REFUSED {
        let asked = Asked {
            payload: ADMIN,
            query,
            variables: "{}",
        };
        let got = refusal(alloc, &meta, asked)?;
        assert!(rt; got.as_str() == *wanted);
    }
    Ok(())
}

/// Requests of readers for posts, by the payload of their `connection_init`.
const READERS: &[(&str, &str, &str)] = &[
    (
        "{\"headers\":{\"x-hasura-role\":\"reader\"}}",
        "subscription { post { id title } }",
        "MissingSession missing session variable: x-hasura-user-id",
    ),
    (
        "{\"headers\":{\"x-hasura-role\":\"reader\",\"x-hasura-user-id\":\"abc\"}}",
        "subscription { post { id title } }",
        "BadSession bad session variable: x-hasura-user-id",
    ),
    (
        "{\"headers\":{\"x-hasura-role\":\"reader\",\"x-hasura-user-id\":\"1\"}}",
        "subscription { post { note } }",
        "NoField no such field: note",
    ),
    (
        "{\"headers\":{\"x-hasura-role\":\"guest\"}}",
        "subscription { post { id } }",
        "NoField no such field: post",
    ),
];

#[test]
fn a_reader_is_refused_what_its_session_or_role_lacks(rt: HostRuntime) -> Result<(), Fail> {
    let alloc = rt.alloc();
    let meta = meta_of(alloc, POSTS)?;
    for (payload, query, wanted) in READERS {
        let asked = Asked {
            payload,
            query,
            variables: "{}",
        };
        let got = refusal(alloc, &meta, asked)?;
        assert!(rt; got.as_str() == *wanted);
    }
    Ok(())
}
