use crate::requests::{flat, meta};
use crate::texts::plan_text;
use plan_model::Plan;
use query_binding::text_variables;
use role_schema::RoleView;
use selection_plan::{plan_of, selection_slots};
use std::alloc::Global;
use std::test::Fail;

fn plan(alloc: Global, view: &RoleView<'_>, query: &str) -> Result<Option<Plan>, Fail> {
    let flat = flat(alloc, query)?;
    let slots = selection_slots(alloc, view, &flat)?;
    let names = text_variables(alloc, &flat)?;
    if slots.len() > 100 || names.names().len() > 100 {
        return Err(Fail::from("too many slots"));
    }
    Ok(plan_of(alloc, view, &names, slots.as_slice(), &flat)?)
}

/// The first query whose plan is another; `none` stands for no plan.
fn wrong_case<'a>(
    alloc: Global,
    view: &RoleView<'_>,
    cases: &[(&'a str, &'a str)],
) -> Result<Option<&'a str>, Fail> {
    for (query, wanted) in cases {
        let is_wanted = match plan(alloc, view, query)? {
            Some(plan) => plan_text(alloc, &plan)?.as_str() == *wanted,
            None => *wanted == "none",
        };
        if !is_wanted {
            return Ok(Some(query));
        }
    }
    Ok(None)
}

fn are_plans(alloc: Global, role: &str, cases: &[(&str, &str)]) -> Result<bool, Fail> {
    let meta = meta(alloc)?;
    let wrong = wrong_case(alloc, &meta.view(role), cases)?;
    Ok(wrong.is_none())
}

#[test]
fn plans_of_a_role_with_filters(rt: HostRuntime) -> Result<(), Fail> {
    let cases = [
        (
            "query ($n: Int) { u: user(where: {name: {_eq: \"a\"}}, limit: $n, order_by: {name: asc}) { name t: __typename } }",
            "u 0 list (1=a & (0=@0 | 1=@1)) by 1 limit $0 cap 10 { name:1 t }",
        ),
        (
            "{ user { name posts(limit: 3, offset: null) { title author { id } } } }",
            "user 0 list (() & (0=@1 | 1=@2)) cap 10 { name:1 posts 0 = 1 1 list (() & (not 2=@0 & 1=@1)) limit 3 { title:2 author 1 = 0 0 one (0=@1 | 1=@2) { id:0 } } }",
        ),
        (
            "{ user_by_pk(id: 7) { id } }",
            "user_by_pk 0 one (0=7 & (0=@0 | 1=@1)) { id:0 }",
        ),
        (
            "subscription { user_stream(batch_size: 5, cursor: [{initial_value: {name: \"m\"}, ordering: DESC}]) { id } }",
            "user_stream 0 stream 1 down 5 (() & (0=@0 | 1=@1)) cap 10 { id:0 }",
        ),
        (
            "subscription { user_stream(batch_size: 1, cursor: {initial_value: {id: 0}}) { id } }",
            "user_stream 0 stream 0 up 1 (() & (0=@0 | 1=@1)) cap 10 { id:0 }",
        ),
    ];
    assert!(rt; are_plans(rt.alloc(), "reader", &cases)?);
    Ok(())
}

#[test]
fn no_plan_without_one_root_that_is_seen(rt: HostRuntime) -> Result<(), Fail> {
    let cases = [
        ("{ user_stream { id } }", "none"),
        ("{ safe { id } }", "none"),
        ("{ user { id } post { id } }", "none"),
        ("{ user @skip(if: true) { id } }", "none"),
    ];
    assert!(rt; are_plans(rt.alloc(), "reader", &cases)?);
    let seen = [("{ safe { id } }", "safe 2 list () { id:0 }")];
    assert!(rt; are_plans(rt.alloc(), "admin", &seen)?);
    Ok(())
}
