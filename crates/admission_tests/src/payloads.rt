ghost use Rattle.std.specs.Prelude.{◌≡◌, ◌<◌};

use crate::world::{ADMIN, Asked, POSTS, READER_1, READER_2, meta_of, payload, snapshot_after};
use scalar_val::Steps;
use std::alloc::Global;
use std::marker::Brand;
use std::sync::ledger::{Blank, Ledger};
use std::test::Fail;

/// Requests on one history, each with what it gets: who asks, the query, its variables and the payload.
type Row = (&'static str, &'static str, &'static str, &'static str);

/// The number of the first row that doesn't get what it says, from 0.
fn wrong_row<L: Ledger>(
    alloc: Global,
    blank: Blank,
    transactions: &[&str],
    rows: &[Row],
) -> Result<Option<usize>, Fail>
    requires name { blank.name ≡ L.name }
    requires parts { blank.parts ≡ L.parts }
    requires some { 0 < blank.parts }
{
    let mut steps = Steps::<L>::new(blank);
    let meta = meta_of(alloc, POSTS)?;
    let snapshot = snapshot_after(alloc, &meta, transactions, &mut steps)?;
    for (index, (who, query, variables, wanted)) in rows.iter().enumerate() {
        let asked = Asked {
            payload: who,
            query,
            variables,
        };
        let got = payload(alloc, &meta, &snapshot, asked)?;
        if got.as_str() != *wanted {
            return Ok(Some(index));
        }
    }
    Ok(None)
}

const TWO_POSTS: &[&str] = &[
    "[{\"insert\":\"post\",\"row\":{\"id\":1,\"author_id\":1,\"title\":\"x\"}},{\"insert\":\"post\",\"row\":{\"id\":2,\"author_id\":2,\"title\":\"y\"}}]",
];

const TWO_READERS: &[Row] = &[
    (
        READER_1,
        "subscription { post { id title } }",
        "{}",
        "{\"data\":{\"post\":[{\"id\":1,\"title\":\"x\"}]}}",
    ),
    (
        READER_2,
        "subscription { post { id title } }",
        "{}",
        "{\"data\":{\"post\":[{\"id\":2,\"title\":\"y\"}]}}",
    ),
    (
        ADMIN,
        "query { post { id } }",
        "null",
        "{\"data\":{\"post\":[{\"id\":1},{\"id\":2}]}}",
    ),
];

#[test]
fn each_reader_sees_its_own_rows(rt: HostRuntime) -> Result<(), Fail> {
    assert_eq!(rt;
        wrong_row::<Brand>(rt.alloc(), Blank::new(1), TWO_POSTS, TWO_READERS)?,
        None
    );
    Ok(())
}

const AUTHORS: &[&str] = &[
    "[{\"insert\":\"user\",\"row\":{\"id\":1,\"name\":\"Ann\"}},{\"insert\":\"user\",\"row\":{\"id\":2}}]",
    "[{\"insert\":\"post\",\"row\":{\"id\":1,\"author_id\":1,\"title\":\"a\"}},{\"insert\":\"post\",\"row\":{\"id\":2,\"author_id\":1,\"title\":\"b\"}}]",
    "[{\"insert\":\"post\",\"row\":{\"id\":3,\"author_id\":2,\"title\":\"c\"}},{\"insert\":\"post\",\"row\":{\"id\":4,\"title\":\"d\"}}]",
];

const NULLS_AND_LIMITS: &[Row] = &[
    (
        ADMIN,
        "subscription { user(order_by: {name: desc}) { id posts(limit: 1, order_by: {id: desc}) { id } } }",
        "{}",
        "{\"data\":{\"user\":[{\"id\":2,\"posts\":[{\"id\":3}]},{\"id\":1,\"posts\":[{\"id\":2}]}]}}",
    ),
    (
        ADMIN,
        "subscription { post(where: {_not: {author_id: {_eq: 1}}}) { id author { id } } }",
        "{}",
        "{\"data\":{\"post\":[{\"id\":3,\"author\":{\"id\":2}}]}}",
    ),
    (
        ADMIN,
        "subscription { post_by_pk(id: 4) { id author { id } } }",
        "{}",
        "{\"data\":{\"post_by_pk\":{\"id\":4,\"author\":null}}}",
    ),
];

#[test]
fn nulls_join_nothing_and_limits_cut(rt: HostRuntime) -> Result<(), Fail> {
    assert_eq!(rt;
        wrong_row::<Brand>(rt.alloc(), Blank::new(1), AUTHORS, NULLS_AND_LIMITS)?,
        None
    );
    Ok(())
}

const LISTS: &[Row] = &[
    (
        ADMIN,
        "query($ids: [Int!]) { post(where: {id: {_in: $ids}}) { id } }",
        "{\"ids\":[3,1]}",
        "{\"data\":{\"post\":[{\"id\":1},{\"id\":3}]}}",
    ),
    (
        ADMIN,
        "query { post(where: {_or: [{id: {_nin: [1, 2, 3]}}, {title: {_eq: \"a\"}}]}) { id } }",
        "{}",
        "{\"data\":{\"post\":[{\"id\":1},{\"id\":4}]}}",
    ),
    (
        ADMIN,
        "query($gone: Boolean = true, $n: Int = 1) { post(where: {author_id: {_is_null: $gone}}, limit: $n) { k: title } }",
        "{\"n\":null}",
        "{\"data\":{\"post\":[{\"k\":\"d\"}]}}",
    ),
];

#[test]
fn variables_of_lists_and_defaults_count(rt: HostRuntime) -> Result<(), Fail> {
    assert_eq!(rt;
        wrong_row::<Brand>(rt.alloc(), Blank::new(1), AUTHORS, LISTS)?,
        None
    );
    Ok(())
}

const FEED: &str =
    "subscription Feed($n: Int = 2, $withPosts: Boolean!) { user(order_by: [{id: asc}], limit: $n) { ...U __typename } } fragment U on user { id name posts(order_by: {id: desc}) @include(if: $withPosts) { title author { name __typename } } }";

const THREE_USERS: &str =
    "[{\"insert\":\"user\",\"row\":{\"id\":1,\"name\":\"Ann\"}},{\"insert\":\"user\",\"row\":{\"id\":2,\"name\":\"Bo\"}},{\"insert\":\"user\",\"row\":{\"id\":3,\"name\":\"Cy\"}}]";

#[test]
fn a_usual_client_gets_what_it_selects(rt: HostRuntime) -> Result<(), Fail> {
    let first = &[(
        READER_1,
        FEED,
        "{\"withPosts\":true}",
        "{\"data\":{\"user\":[{\"id\":1,\"name\":\"Ann\",\"posts\":[],\"__typename\":\"user\"},{\"id\":2,\"name\":\"Bo\",\"posts\":[],\"__typename\":\"user\"}]}}",
    )];
    assert_eq!(rt;
        wrong_row::<Brand>(rt.alloc(), Blank::new(1), &[THREE_USERS], first)?,
        None
    );
    Ok(())
}

#[test]
fn a_usual_client_gets_a_new_row_with_its_relations(rt: HostRuntime) -> Result<(), Fail> {
    let then = &[(
        READER_1,
        FEED,
        "{\"withPosts\":true}",
        "{\"data\":{\"user\":[{\"id\":1,\"name\":\"Ann\",\"posts\":[{\"title\":\"Hi\",\"author\":{\"name\":\"Ann\",\"__typename\":\"user\"}}],\"__typename\":\"user\"},{\"id\":2,\"name\":\"Bo\",\"posts\":[],\"__typename\":\"user\"}]}}",
    )];
    let hi = "[{\"insert\":\"post\",\"row\":{\"id\":10,\"author_id\":1,\"title\":\"Hi\"}}]";
    assert_eq!(rt;
        wrong_row::<Brand>(rt.alloc(), Blank::new(1), &[THREE_USERS, hi], then)?,
        None
    );
    Ok(())
}

const TITLES: &[&str] = &[
    "[{\"insert\":\"post\",\"row\":{\"id\":1,\"title\":\"t\"}},{\"insert\":\"post\",\"row\":{\"id\":2,\"title\":\"t\"}},{\"insert\":\"post\",\"row\":{\"id\":3,\"title\":\"u\"}}]",
];

const STREAMED: &[Row] = &[
    (
        ADMIN,
        "subscription { post_stream(batch_size: 1, cursor: [{initial_value: {title: \"\"}, ordering: ASC}]) { id title } }",
        "{}",
        "{\"data\":{\"post_stream\":[{\"id\":1,\"title\":\"t\"}]}}",
    ),
    (
        ADMIN,
        "subscription($from: String!) { post_stream(batch_size: 1, cursor: {initial_value: {title: $from}}) { id title } }",
        "{\"from\":\"t\"}",
        "{\"data\":{\"post_stream\":[{\"id\":3,\"title\":\"u\"}]}}",
    ),
    (
        ADMIN,
        "subscription { post_stream(batch_size: 9, cursor: {initial_value: {title: \"u\"}, ordering: DESC}) { id } }",
        "{}",
        "{\"data\":{\"post_stream\":[{\"id\":1},{\"id\":2}]}}",
    ),
];

#[test]
fn a_stream_begins_beyond_its_initial_value(rt: HostRuntime) -> Result<(), Fail> {
    assert_eq!(rt;
        wrong_row::<Brand>(rt.alloc(), Blank::new(1), TITLES, STREAMED)?,
        None
    );
    Ok(())
}
