use crate::walk_fault;
use gql_ast::parse;
use gql_flat::flatten;
use gql_lex::tokens;
use json_out::Request;
use query_model::AdmitFault;
use request_model::{Flat, FlatField};
use role_schema::{Meta, RoleView};
use scalar_val::Str;
use serde_json::Value;
use std::alloc::Global;
use std::test::Fail;
use variable_values::{Variables, read_variables};

/// Users and their posts, things of each kind, and logs, whose key the reader doesn't see.
const METADATA: &str = r#"version = 1
[[tables]]
name = "user"
key = ["id"]
columns = [{ name = "id", type = "int" }, { name = "name", type = "text", nullable = true }]
array = [{ name = "posts", table = "post", from = ["id"], to = ["author_id"] }]
select = [{ role = "reader", columns = ["id", "name"], filter = "{}" }]

[[tables]]
name = "post"
key = ["id"]
columns = [{ name = "id", type = "int" }, { name = "author_id", type = "int", nullable = true }, { name = "note", type = "text", nullable = true }]
object = [{ name = "author", table = "user", from = ["author_id"], to = ["id"] }]
select = [{ role = "reader", columns = ["id", "author_id"], filter = "{}" }]

[[tables]]
name = "thing"
key = ["code", "size"]
columns = [{ name = "code", type = "uuid" }, { name = "size", type = "bigint" }, { name = "done", type = "boolean" }]
select = [{ role = "reader", columns = ["code", "size", "done"], filter = "{}" }]

[[tables]]
name = "log"
key = ["id"]
columns = [{ name = "id", type = "int" }, { name = "line", type = "text" }]
select = [{ role = "reader", columns = ["line"], filter = "{}" }]
"#;

fn request_of(alloc: Global, query: &str, variables: &str) -> Result<Request, Fail> {
    let Ok(variables) = Value::from_str(alloc, variables) else {
        return Err(Fail::from("the variables aren't JSON"));
    };
    Ok(Request {
        query: Str::of(alloc, query)?,
        operation: None,
        variables,
    })
}

fn flat_of(alloc: Global, request: &Request) -> Result<Flat, Fail> {
    let Ok(run) = tokens(alloc, request.query.as_str()) else {
        return Err(Fail::from("no memory"));
    };
    let Ok(document) = parse(alloc, request.query.as_str(), &run) else {
        return Err(Fail::from("no document"));
    };
    match flatten(alloc, &document, request) {
        Ok(flat) => Ok(flat),
        Err(_fault) => Err(Fail::from("no selection")),
    }
}

fn variables_of(alloc: Global, flat: &Flat, request: &Request) -> Result<Variables, Fail> {
    match read_variables(alloc, flat.vars.as_slice(), &request.variables) {
        Ok(variables) => Ok(variables),
        Err(AdmitFault::Refused(_fault)) => Err(Fail::from("wrong variables")),
        Err(AdmitFault::NoMemory) => Err(Fail::from("no memory")),
    }
}

fn root_field(flat: &Flat) -> Result<&FlatField, Fail> {
    match flat.fields.get(0) {
        Some(field) => Ok(field),
        None => Err(Fail::from("no field")),
    }
}

/// The refusal's code and its name, or nothing.
fn answer(
    alloc: Global,
    view: &RoleView<'_>,
    query: &str,
    variables: &str,
) -> Result<String, Fail> {
    let request = request_of(alloc, query, variables)?;
    let flat = flat_of(alloc, &request)?;
    let vars = variables_of(alloc, &flat, &request)?;
    match walk_fault(&vars, view, &flat, root_field(&flat)?) {
        Some(refusal) => Ok(format!(in alloc; "{:?}: {}", refusal.kind, refusal.name)?),
        None => Ok(String::new(alloc)),
    }
}

/// The first query that is answered in another way.
fn wrong_case(
    alloc: Global,
    role: &str,
    cases: &[(&str, &str, &str)],
) -> Result<Option<usize>, Fail> {
    let Ok(meta) = Meta::read(alloc, METADATA.as_bytes()) else {
        return Err(Fail::from("no metadata"));
    };
    let view = meta.view(role);
    for (index, (query, variables, expected)) in cases.iter().enumerate() {
        if answer(alloc, &view, query, variables)?.as_str() != *expected {
            return Ok(Some(index));
        }
    }
    Ok(None)
}

#[test]
fn fields_in_their_order(rt: HostRuntime) -> Result<(), Fail> {
    let cases = [
        (
            "{ user { id __typename posts { author { name } } } }",
            "{}",
            "",
        ),
        ("{ nothing { id } }", "{}", "NoField: nothing"),
        ("{ log { line } }", "{}", ""),
        ("{ log { id } }", "{}", "NoField: id"),
        ("{ log_by_pk(id: 1) { line } }", "{}", "NoField: log_by_pk"),
        (
            "{ user_stream(batch_size: 1, cursor: {initial_value: {id: 1}}) { id } }",
            "{}",
            "NoField: user_stream",
        ),
        ("{ user(nope: 1) }", "{}", "WrongType: user"),
        ("{ user { posts(nope: 1) } }", "{}", "WrongType: posts"),
        ("{ user { id(nope: 1) { id } } }", "{}", "WrongType: id"),
        (
            "{ user { __typename(nope: 1) { id } } }",
            "{}",
            "WrongType: __typename",
        ),
        ("{ user { id(nope: 1) } }", "{}", "NoArgument: nope"),
        ("{ user_by_pk(nope: 1) { id } }", "{}", "NoArgument: nope"),
        (
            "{ user_by_pk { ... on post { id } } }",
            "{}",
            "NoArgument: id",
        ),
        (
            "{ user_by_pk(id: 1) { ... on post { nope } } }",
            "{}",
            "NoField: post",
        ),
        (
            "{ user { posts(nope: 1) { id } nope } }",
            "{}",
            "NoArgument: nope",
        ),
        (
            "{ user { wrong posts(nope: 1) { id } } }",
            "{}",
            "NoField: wrong",
        ),
        ("{ ... on query_root { user { id } } }", "{}", ""),
        (
            "subscription { ... on query_root { user { id } } }",
            "{}",
            "NoField: query_root",
        ),
    ];
    assert_eq!(rt; wrong_case(rt.alloc(), "reader", &cases)?, None);
    Ok(())
}

#[test]
fn the_role_admin_sees_everything(rt: HostRuntime) -> Result<(), Fail> {
    let cases = [
        ("{ log_by_pk(id: 1) { id line } }", "{}", ""),
        ("{ log_by_pk(id: 1, id: 1) { id } }", "{}", "NoArgument: id"),
        ("{ log_by_pk(id: null) { id } }", "{}", "NullOperand: id"),
        (
            "{ post { note author(limit: 1) { id } } }",
            "{}",
            "NoArgument: limit",
        ),
        (
            "{ thing_by_pk(size: 1) { done } }",
            "{}",
            "NoArgument: code",
        ),
        (
            "{ thing_by_pk(size: 1, code: \"1\") { done } }",
            "{}",
            "WrongType: code",
        ),
    ];
    assert_eq!(rt; wrong_case(rt.alloc(), "admin", &cases)?, None);
    Ok(())
}

#[test]
fn conditions(rt: HostRuntime) -> Result<(), Fail> {
    let cases = [
        ("{ user(where: null) { id } }", "{}", ""),
        ("{ user(where: []) { id } }", "{}", "WrongType: where"),
        (
            "{ user(where: {_and: [{id: {_gt: 1}}, {_not: {name: {_is_null: true}}}], _or: {id: {_in: [1, 2]}}}) { id } }",
            "{}",
            "",
        ),
        (
            "{ user(where: {_not: [{}]}) { id } }",
            "{}",
            "WrongType: _not",
        ),
        (
            "{ user(where: {_and: [{}, []]}) { id } }",
            "{}",
            "WrongType: _and",
        ),
        (
            "{ user(where: {_or: null}) { id } }",
            "{}",
            "WrongType: _or",
        ),
        (
            "{ user(where: {nope: {}}) { id } }",
            "{}",
            "NoArgument: nope",
        ),
        (
            "{ log(where: {id: {_eq: 1}}) { line } }",
            "{}",
            "NoArgument: id",
        ),
        (
            "{ user(where: {_or: [{id: {}, id: {_eq: null}}, {nope: 1}]}) { id } }",
            "{}",
            "NoArgument: id",
        ),
        ("{ user(where: {id: 1}) { id } }", "{}", "WrongType: id"),
        (
            "{ user(where: {id: {_like: 1}}) { id } }",
            "{}",
            "WrongType: id",
        ),
        (
            "{ user(where: {id: {_eq: 1, _eq: null}}) { id } }",
            "{}",
            "WrongType: id",
        ),
        (
            "{ user(where: {id: {_eq: null}}) { id } }",
            "{}",
            "NullOperand: id",
        ),
        (
            "{ user(where: {id: {_in: [1, null, \"\"]}}) { id } }",
            "{}",
            "NullOperand: id",
        ),
        ("{ user(where: {id: {_nin: 1}}) { id } }", "{}", ""),
        (
            "{ user(where: {id: {_is_null: 1}}) { id } }",
            "{}",
            "WrongType: id",
        ),
    ];
    assert_eq!(rt; wrong_case(rt.alloc(), "reader", &cases)?, None);
    Ok(())
}

#[test]
fn literals_of_each_kind(rt: HostRuntime) -> Result<(), Fail> {
    let cases = [
        (
            "{ user(where: {id: {_gt: -2147483648, _lt: 2147483647}, name: {_eq: \"1\"}}) { id } }",
            "{}",
            "",
        ),
        (
            "{ user(where: {id: {_eq: 2147483648}}) { id } }",
            "{}",
            "WrongType: id",
        ),
        (
            "{ user(where: {id: {_eq: \"1\"}}) { id } }",
            "{}",
            "WrongType: id",
        ),
        (
            "{ user(where: {name: {_eq: 1}}) { id } }",
            "{}",
            "WrongType: name",
        ),
        (
            "{ user(where: {name: {_eq: ANN}}) { id } }",
            "{}",
            "WrongType: name",
        ),
        (
            "{ thing(where: {size: {_gt: -9223372036854775808, _lt: \"9223372036854775807\"}, done: {_eq: true}}) { done } }",
            "{}",
            "",
        ),
        (
            "{ thing(where: {size: {_eq: 9223372036854775808}}) { done } }",
            "{}",
            "WrongType: size",
        ),
        (
            "{ thing(where: {size: {_eq: \"+1\"}}) { done } }",
            "{}",
            "WrongType: size",
        ),
        (
            "{ thing(where: {code: {_eq: \"67e55044-10b1-426f-9247-bb680e5fe0c8\"}}) { done } }",
            "{}",
            "",
        ),
        (
            "{ thing(where: {code: {_eq: \"67e55044-10b1-426f-9247\"}}) { done } }",
            "{}",
            "WrongType: code",
        ),
        (
            "{ thing(where: {done: {_eq: 1}}) { done } }",
            "{}",
            "WrongType: done",
        ),
    ];
    assert_eq!(rt; wrong_case(rt.alloc(), "reader", &cases)?, None);
    Ok(())
}

#[test]
fn orders_and_counts(rt: HostRuntime) -> Result<(), Fail> {
    let cases = [
        (
            "{ user(order_by: [{id: desc_nulls_last, name: asc}, {id: asc}], limit: 0, offset: null) { id } }",
            "{}",
            "",
        ),
        ("{ user(order_by: null, limit: 1) { id } }", "{}", ""),
        (
            "{ user(order_by: {id: ASC}) { id } }",
            "{}",
            "WrongType: id",
        ),
        (
            "{ user(order_by: {nope: ASC}) { id } }",
            "{}",
            "NoArgument: nope",
        ),
        (
            "{ user(order_by: [{id: asc}, 1]) { id } }",
            "{}",
            "WrongType: order_by",
        ),
        (
            "{ user(limit: -1, order_by: 1) { id } }",
            "{}",
            "WrongType: limit",
        ),
        ("{ user(offset: \"1\") { id } }", "{}", "WrongType: offset"),
        (
            "{ user(limit: 1, where: {}, limit: 1) { id } }",
            "{}",
            "NoArgument: limit",
        ),
        (
            "{ user(batch_size: 1) { id } }",
            "{}",
            "NoArgument: batch_size",
        ),
    ];
    assert_eq!(rt; wrong_case(rt.alloc(), "reader", &cases)?, None);
    Ok(())
}

#[test]
fn streams(rt: HostRuntime) -> Result<(), Fail> {
    let cases = [
        (
            "subscription { user_stream(batch_size: 1, cursor: {initial_value: {id: 1}, ordering: DESC}) { id } }",
            "{}",
            "",
        ),
        (
            "subscription { user_stream(cursor: [{initial_value: {id: 1}, ordering: null}], batch_size: 1) { id } }",
            "{}",
            "",
        ),
        (
            "subscription { user_stream { ... on post { id } } }",
            "{}",
            "NoArgument: batch_size",
        ),
        (
            "subscription { user_stream(batch_size: 1) { id } }",
            "{}",
            "NoArgument: cursor",
        ),
        (
            "subscription { user_stream(batch_size: 0, cursor: {}) { id } }",
            "{}",
            "WrongType: batch_size",
        ),
        (
            "subscription { user_stream(batch_size: 1, cursor: []) { id } }",
            "{}",
            "BadCursor: cursor",
        ),
        (
            "subscription { user_stream(batch_size: 1, cursor: {ordering: ASC}) { id } }",
            "{}",
            "BadCursor: cursor",
        ),
        (
            "subscription { user_stream(batch_size: 1, cursor: {initial_value: {name: \"a\"}}) { id } }",
            "{}",
            "BadCursor: cursor",
        ),
        (
            "subscription { user_stream(batch_size: 1, cursor: {initial_value: {id: 1}, ordering: asc}) { id } }",
            "{}",
            "BadCursor: cursor",
        ),
        (
            "subscription { user_stream(batch_size: 1, cursor: {initial_value: {id: null}}) { id } }",
            "{}",
            "NullOperand: id",
        ),
        (
            "subscription { user_stream(limit: 1, batch_size: 0) { id } }",
            "{}",
            "NoArgument: limit",
        ),
    ];
    assert_eq!(rt; wrong_case(rt.alloc(), "reader", &cases)?, None);
    Ok(())
}

#[test]
fn variables(rt: HostRuntime) -> Result<(), Fail> {
    let cases = [
        (
            "query ($v: Int) { user(where: {id: {_eq: $v}}) { id } }",
            "{\"v\":1}",
            "",
        ),
        (
            "query ($v: Int) { user(where: {id: {_eq: $v}}) { id } }",
            "{}",
            "NullOperand: id",
        ),
        (
            "{ user(where: {id: {_eq: $v}}) { id } }",
            "{\"v\":1}",
            "MissingVariable: v",
        ),
        (
            "query ($v: bigint) { user(where: {id: {_eq: $v}}) { id } }",
            "{\"v\":1}",
            "WrongType: v",
        ),
        (
            "query ($v: [Int!]!) { user(where: {id: {_in: $v}}) { id } }",
            "{\"v\":[1]}",
            "",
        ),
        (
            "query ($v: [Int]) { user(where: {id: {_nin: $v}}) { id } }",
            "{\"v\":[1,null]}",
            "NullOperand: id",
        ),
        (
            "query ($v: [Int]) { user(where: {id: {_in: [$v]}}) { id } }",
            "{\"v\":[1]}",
            "WrongType: v",
        ),
        (
            "query ($v: Int) { user(where: {id: {_in: $v}}) { id } }",
            "{\"v\":1}",
            "WrongType: v",
        ),
        ("query ($v: Int) { user(limit: $v) { id } }", "{}", ""),
        (
            "query ($v: Int) { user(limit: $v) { id } }",
            "{\"v\":-1}",
            "WrongType: limit",
        ),
        (
            "subscription ($v: Int) { user_stream(batch_size: $v, cursor: {}) { id } }",
            "{\"v\":0}",
            "WrongType: batch_size",
        ),
        (
            "query ($v: Int) { user(where: $v) { id } }",
            "{\"v\":1}",
            "WrongType: where",
        ),
    ];
    assert_eq!(rt; wrong_case(rt.alloc(), "reader", &cases)?, None);
    Ok(())
}
