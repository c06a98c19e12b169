//! Metadata and flat selections to test with.

use gql_ast::parse;
use gql_flat::flatten;
use gql_lex::tokens;
use json_out::Request;
use request_model::Flat;
use role_schema::Meta;
use scalar_val::Str;
use serde_json::Value;
use std::alloc::Global;
use std::test::Fail;

/// `reader` has a filter and a limit on `user`, a filter on `post`, and sees nothing of `safe`.
const TABLES: &str = r#"version = 1
[[tables]]
name = "user"
key = ["id"]
columns = [{ name = "id", type = "int" }, { name = "name", type = "text", nullable = true }]
array = [{ name = "posts", table = "post", from = ["id"], to = ["author_id"] }]
select = [{ role = "reader", columns = ["id", "name"], filter = '{"_or":[{"id":{"_eq":"X-Hasura-User-Id"}},{"name":{"_neq":"X-Hasura-User-Id"}}]}', limit = 10 }]
[[tables]]
name = "post"
key = ["id"]
columns = [{ name = "id", type = "int" }, { name = "author_id", type = "int" }, { name = "title", type = "text" }]
object = [{ name = "author", table = "user", from = ["author_id"], to = ["id"] }]
select = [{ role = "reader", columns = ["id", "title"], filter = '{"_and":[{"_not":{"title":{"_eq":"X-Hasura-Title"}}},{"author_id":{"_eq":"x-hasura-user-id"}}]}' }]
[[tables]]
name = "safe"
key = ["id"]
columns = [{ name = "id", type = "int" }]
"#;

pub(crate) fn meta(alloc: Global) -> Result<Meta, Fail> {
    match Meta::read(alloc, TABLES.as_bytes()) {
        Ok(meta) => Ok(meta),
        Err(_fault) => Err(Fail::from("no metadata")),
    }
}

fn request(alloc: Global, query: &str) -> Result<Request, Fail> {
    let query = Str::of(alloc, query)?;
    let Ok(variables) = Value::from_str(alloc, "{}") else {
        return Err(Fail::from("no variables"));
    };
    Ok(Request {
        query,
        operation: None,
        variables,
    })
}

/// The flat selection of the one operation of a text.
pub(crate) fn flat(alloc: Global, query: &str) -> Result<Flat, Fail> {
    let request = request(alloc, query)?;
    let Ok(run) = tokens(alloc, query) else {
        return Err(Fail::from("no memory"));
    };
    let Ok(document) = parse(alloc, query, &run) else {
        return Err(Fail::from("no document"));
    };
    match flatten(alloc, &document, &request) {
        Ok(flat) => Ok(flat),
        Err(_fault) => Err(Fail::from("no selection")),
    }
}
