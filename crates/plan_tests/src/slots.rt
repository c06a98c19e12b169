use crate::requests::{flat, meta};
use query_model::SessionSlot;
use role_schema::RoleView;
use scalar_val::{Kind, NoMemory};
use selection_plan::selection_slots;
use std::alloc::Global;
use std::test::Fail;

fn kind_word(kind: Kind) -> &'static str {
    match kind {
        Kind::Bool => " boolean;",
        Kind::Int => " int;",
        Kind::Big => " bigint;",
        Kind::Text => " text;",
        Kind::Uuid => " uuid;",
    }
}

fn slots_text(alloc: Global, slots: &[SessionSlot]) -> Result<String, NoMemory> {
    let mut out = String::new(alloc);
    for slot in slots {
        out.push_str(slot.name.as_str())?;
        out.push_str(kind_word(slot.kind))?;
    }
    Ok(out)
}

/// The first query whose session variables are others.
fn wrong_case<'a>(
    alloc: Global,
    view: &RoleView<'_>,
    cases: &[(&'a str, &'a str)],
) -> Result<Option<&'a str>, Fail> {
    for (query, wanted) in cases {
        let slots = selection_slots(alloc, view, &flat(alloc, query)?)?;
        if slots_text(alloc, slots.as_slice())?.as_str() != *wanted {
            return Ok(Some(query));
        }
    }
    Ok(None)
}

#[test]
fn session_variables_of_filters_in_order_and_each_once(rt: HostRuntime) -> Result<(), Fail> {
    let alloc = rt.alloc();
    let meta = meta(alloc)?;
    let user = "x-hasura-user-id int;x-hasura-user-id text;";
    let both = "x-hasura-title text;x-hasura-user-id int;x-hasura-user-id text;";
    let cases = [
        ("{ user { id } }", user),
        (
            "{ post { id } }",
            "x-hasura-title text;x-hasura-user-id int;",
        ),
        ("{ user { posts { title author { posts { id } } } } }", both),
        ("{ user { id } post { id } }", both),
        ("subscription { user_stream { id } }", user),
        ("{ user_stream { posts { id } } }", ""),
        ("{ safe { id } }", ""),
        ("{ user { gone { id } name { id } } }", user),
    ];
    let wrong = wrong_case(alloc, &meta.view("reader"), &cases)?;
    assert!(rt; wrong.is_none());
    let admin = [("{ user { posts { id } } }", "")];
    let wrong = wrong_case(alloc, &meta.view("admin"), &admin)?;
    assert!(rt; wrong.is_none());
    Ok(())
}
