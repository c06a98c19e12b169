use crate::{Meant, Root, column_name, key_columns, kind_of, meant, root, type_name};
use role_schema::{Meta, RoleView};
use scalar_val::{Kind, Word};
use std::alloc::Global;
use std::test::Fail;

/// `reader` sees the whole key of `user`, not that of `note`, and nothing of `safe`.
const TABLES: &str = r#"version = 1
[[tables]]
name = "user"
key = ["id"]
columns = [{ name = "id", type = "int" }, { name = "name", type = "text", nullable = true }, { name = "secret", type = "uuid" }]
array = [{ name = "notes", table = "note", from = ["id"], to = ["user_id"] }, { name = "safes", table = "safe", from = ["id"], to = ["id"] }]
select = [{ role = "reader", columns = ["id", "name"], filter = "{}" }]
[[tables]]
name = "note"
key = ["id", "user_id"]
columns = [{ name = "text", type = "text" }, { name = "id", type = "bigint" }, { name = "user_id", type = "int" }]
object = [{ name = "author", table = "user", from = ["user_id"], to = ["id"] }]
select = [{ role = "reader", columns = ["text", "id"], filter = "{}" }]
[[tables]]
name = "safe"
key = ["id"]
columns = [{ name = "id", type = "int" }]
"#;

fn meta(alloc: Global) -> Result<Meta, Fail> {
    match Meta::read(alloc, TABLES.as_bytes()) {
        Ok(meta) => Ok(meta),
        Err(_fault) => Err(Fail::from("no metadata")),
    }
}

/// The first name that means something else in the root.
fn other_root<'a>(view: &RoleView<'_>, word: Word, cases: &[(&'a str, Root)]) -> Option<&'a str> {
    for (name, wanted) in cases {
        if root(view, word, name) != *wanted {
            return Some(name);
        }
    }
    None
}

#[test]
fn fields_of_the_root(rt: HostRuntime) -> Result<(), Fail> {
    let meta = meta(rt.alloc())?;
    let view = meta.view("reader");
    let queries = [
        ("user", Root::RowsOf(0)),
        ("note", Root::RowsOf(1)),
        ("safe", Root::NoRoot),
        ("user_by_pk", Root::RowOf(0)),
        ("note_by_pk", Root::NoRoot),
        ("safe_by_pk", Root::NoRoot),
        ("user_stream", Root::NoRoot),
        ("User", Root::NoRoot),
        ("_by_pk", Root::NoRoot),
        ("user_by_pk_by_pk", Root::NoRoot),
        ("", Root::NoRoot),
    ];
    assert!(rt; other_root(&view, Word::Query, &queries).is_none());
    let subscriptions = [
        ("user", Root::RowsOf(0)),
        ("note_stream", Root::StreamOf(1)),
        ("user_by_pk", Root::RowOf(0)),
        ("safe_stream", Root::NoRoot),
    ];
    assert!(rt; other_root(&view, Word::Subscription, &subscriptions).is_none());
    Ok(())
}

/// The word of what a field means, and the number of its column or of its relationship's table.
fn told(field: Meant<'_>) -> (&'static str, u32) {
    match field {
        Meant::Typename => ("type", 0),
        Meant::AColumn(column) => ("column", column),
        Meant::ALink(link) => ("link", link.table),
        Meant::Unseen => ("unseen", 0),
    }
}

/// The first name that means something else in an object of a table.
fn other_field<'a>(view: &RoleView<'_>, cases: &[(u32, &'a str, &'a str, u32)]) -> Option<&'a str> {
    for (table, name, word, number) in cases {
        let (said, at) = told(meant(view, *table, name));
        if said != *word || at != *number {
            return Some(name);
        }
    }
    None
}

#[test]
fn fields_of_objects(rt: HostRuntime) -> Result<(), Fail> {
    let meta = meta(rt.alloc())?;
    let view = meta.view("reader");
    let cases = [
        (0, "__typename", "type", 0),
        (0, "name", "column", 1),
        (0, "secret", "unseen", 0),
        (0, "notes", "link", 1),
        (0, "safes", "unseen", 0),
        (1, "text", "column", 0),
        (1, "author", "link", 0),
        (1, "user_id", "unseen", 0),
        (2, "id", "unseen", 0),
        (3, "__typename", "type", 0),
        (3, "id", "unseen", 0),
    ];
    assert!(rt; other_field(&view, &cases).is_none());
    Ok(())
}

#[test]
fn names_and_kinds(rt: HostRuntime) -> Result<(), Fail> {
    let meta = meta(rt.alloc())?;
    let view = meta.view("reader");
    assert!(rt; type_name(&view, 1) == "note" && type_name(&view, 3) == "");
    assert!(rt; key_columns(&view, 1) == [1, 2].as_slice() && key_columns(&view, 3).is_empty());
    assert!(rt; kind_of(&view, 0, 2) == Kind::Uuid && kind_of(&view, 0, 3) == Kind::Text);
    assert!(rt; column_name(&view, 0, 2) == "secret" && column_name(&view, 0, 3) == "");
    Ok(())
}
