//! Scripts and their transcripts: the metadata, the lines after it, and what is written.

/// The metadata, the lines after the one that ends it, and the transcript.
pub(crate) type Row = (&'static str, &'static str, &'static str);

/// One table of users.
pub(crate) const USERS: &str =
    "version = 1\n[[tables]]\nname = \"user\"\nkey = [\"id\"]\ncolumns = [{ name = \"id\", type = \"int\" }, { name = \"name\", type = \"text\", nullable = true }]\n";

/// Users and their posts, with a role that reads its own posts.
pub(crate) const POSTS: &str =
    "version = 1\n[[tables]]\nname = \"user\"\nkey = [\"id\"]\ncolumns = [{ name = \"id\", type = \"int\" }, { name = \"name\", type = \"text\", nullable = true }]\narray = [{ name = \"posts\", table = \"post\", from = [\"id\"], to = [\"author_id\"] }]\nselect = [{ role = \"reader\", columns = [\"id\", \"name\"], filter = '{}' }]\n[[tables]]\nname = \"post\"\nkey = [\"id\"]\ncolumns = [{ name = \"id\", type = \"int\" }, { name = \"author_id\", type = \"int\", nullable = true }, { name = \"title\", type = \"text\" }, { name = \"note\", type = \"text\", nullable = true }]\nobject = [{ name = \"author\", table = \"user\", from = [\"author_id\"], to = [\"id\"] }]\nselect = [{ role = \"reader\", columns = [\"id\", \"author_id\", \"title\"], filter = '{\"author_id\":{\"_eq\":\"X-Hasura-User-Id\"}}' }]\n";

/// Polls: no change, a change and back, a commit in flight, the same id again in flight, a newcomer in flight, an abandoned job, a query operation.
pub(crate) const POLLS: [Row; 7] = [
    (
        USERS,
        "open 1\nrecv 1 {\"type\":\"connection_init\"}\nrecv 1 {\"type\":\"subscribe\",\"id\":\"a\",\"payload\":{\"query\":\"subscription { user { id name } }\"}}\npoll\npoll\n",
        "open 1\nrecv 1\n> 1 {\"type\":\"connection_ack\"}\nrecv 1\ntick 1\njob 1 version 0 cohorts 1 members 1\npublished 1 version 0\n> 1 {\"type\":\"next\",\"id\":\"a\",\"payload\":{\"data\":{\"user\":[]}}}\ntick 1\njob 2 version 0 cohorts 1 members 1\npublished 2 version 0\n",
    ),
    (
        USERS,
        "open 1\nrecv 1 {\"type\":\"connection_init\"}\nrecv 1 {\"type\":\"subscribe\",\"id\":\"a\",\"payload\":{\"query\":\"subscription { user { id name } }\"}}\npoll\ncommit [{\"insert\":\"user\",\"row\":{\"id\":1,\"name\":\"Ann\"}}]\npoll\ncommit [{\"update\":\"user\",\"key\":{\"id\":1},\"set\":{\"name\":\"Bo\"}}]\ncommit [{\"update\":\"user\",\"key\":{\"id\":1},\"set\":{\"name\":\"Ann\"}}]\npoll\n",
        "open 1\nrecv 1\n> 1 {\"type\":\"connection_ack\"}\nrecv 1\ntick 1\njob 1 version 0 cohorts 1 members 1\npublished 1 version 0\n> 1 {\"type\":\"next\",\"id\":\"a\",\"payload\":{\"data\":{\"user\":[]}}}\ncommit 1\ntick 1\njob 2 version 1 cohorts 1 members 1\npublished 2 version 1\n> 1 {\"type\":\"next\",\"id\":\"a\",\"payload\":{\"data\":{\"user\":[{\"id\":1,\"name\":\"Ann\"}]}}}\ncommit 2\ncommit 3\ntick 1\njob 3 version 3 cohorts 1 members 1\npublished 3 version 3\n",
    ),
    (
        USERS,
        "open 1\nrecv 1 {\"type\":\"connection_init\"}\nrecv 1 {\"type\":\"subscribe\",\"id\":\"a\",\"payload\":{\"query\":\"subscription { user { id name } }\"}}\ntick\ntake\ncommit [{\"insert\":\"user\",\"row\":{\"id\":1,\"name\":\"Ann\"}}]\npublish 1\npoll\n",
        "open 1\nrecv 1\n> 1 {\"type\":\"connection_ack\"}\nrecv 1\ntick 1\njob 1 version 0 cohorts 1 members 1\ncommit 1\npublished 1 version 0\n> 1 {\"type\":\"next\",\"id\":\"a\",\"payload\":{\"data\":{\"user\":[]}}}\ntick 1\njob 2 version 1 cohorts 1 members 1\npublished 2 version 1\n> 1 {\"type\":\"next\",\"id\":\"a\",\"payload\":{\"data\":{\"user\":[{\"id\":1,\"name\":\"Ann\"}]}}}\n",
    ),
    (
        USERS,
        "open 1\nrecv 1 {\"type\":\"connection_init\"}\nrecv 1 {\"type\":\"subscribe\",\"id\":\"a\",\"payload\":{\"query\":\"subscription { user { id name } }\"}}\ntick\ntake\nrecv 1 {\"type\":\"complete\",\"id\":\"a\"}\nrecv 1 {\"type\":\"subscribe\",\"id\":\"a\",\"payload\":{\"query\":\"subscription { user { id name } }\"}}\ntick\npublish 1\npoll\n",
        "open 1\nrecv 1\n> 1 {\"type\":\"connection_ack\"}\nrecv 1\ntick 1\njob 1 version 0 cohorts 1 members 1\nrecv 1\nrecv 1\ntick 0\npublished 1 version 0\ntick 1\njob 2 version 0 cohorts 1 members 1\npublished 2 version 0\n> 1 {\"type\":\"next\",\"id\":\"a\",\"payload\":{\"data\":{\"user\":[]}}}\n",
    ),
    (
        USERS,
        "open 1\nrecv 1 {\"type\":\"connection_init\"}\nrecv 1 {\"type\":\"subscribe\",\"id\":\"a\",\"payload\":{\"query\":\"subscription { user { id name } }\"}}\ntick\ntake\nrecv 1 {\"type\":\"subscribe\",\"id\":\"b\",\"payload\":{\"query\":\"subscription { user { id name } }\"}}\ntick\npublish 1\npoll\n",
        "open 1\nrecv 1\n> 1 {\"type\":\"connection_ack\"}\nrecv 1\ntick 1\njob 1 version 0 cohorts 1 members 1\nrecv 1\ntick 0\npublished 1 version 0\n> 1 {\"type\":\"next\",\"id\":\"a\",\"payload\":{\"data\":{\"user\":[]}}}\ntick 2\njob 2 version 0 cohorts 1 members 2\npublished 2 version 0\n> 1 {\"type\":\"next\",\"id\":\"b\",\"payload\":{\"data\":{\"user\":[]}}}\n",
    ),
    (
        USERS,
        "open 1\nrecv 1 {\"type\":\"connection_init\"}\nrecv 1 {\"type\":\"subscribe\",\"id\":\"a\",\"payload\":{\"query\":\"subscription { user { id name } }\"}}\ntick\ntake\nabandon 1\ntake\npublish 1\npublish 2\ntake\n",
        "open 1\nrecv 1\n> 1 {\"type\":\"connection_ack\"}\nrecv 1\ntick 1\njob 1 version 0 cohorts 1 members 1\nabandoned 1\njob 2 version 0 cohorts 1 members 1\nnot open 1\npublished 2 version 0\n> 1 {\"type\":\"next\",\"id\":\"a\",\"payload\":{\"data\":{\"user\":[]}}}\nnone\n",
    ),
    (
        USERS,
        "open 1\nrecv 1 {\"type\":\"connection_init\"}\nrecv 1 {\"type\":\"subscribe\",\"id\":\"q\",\"payload\":{\"query\":\"query { user { id } }\"}}\npoll\nreport\n",
        "open 1\nrecv 1\n> 1 {\"type\":\"connection_ack\"}\nrecv 1\ntick 1\njob 1 version 0 cohorts 1 members 1\npublished 1 version 0\n> 1 {\"type\":\"next\",\"id\":\"q\",\"payload\":{\"data\":{\"user\":[]}}}\n> 1 {\"type\":\"complete\",\"id\":\"q\"}\nreport connections 1 live 0 due 0 jobs 0 version 0\n",
    ),
];

/// Each close: a live id, one whose reason is cut, bad and binary messages, a wrong secret, no init in time, two inits, a subscribe before init.
pub(crate) const CLOSES: [Row; 8] = [
    (
        USERS,
        "open 1\nrecv 1 {\"type\":\"connection_init\"}\nrecv 1 {\"type\":\"subscribe\",\"id\":\"a\",\"payload\":{\"query\":\"subscription { user { id name } }\"}}\nrecv 1 {\"type\":\"subscribe\",\"id\":\"a\",\"payload\":{\"query\":\"subscription { user { id name } }\"}}\ndrain 1\ndrain 1\n",
        "open 1\nrecv 1\n> 1 {\"type\":\"connection_ack\"}\nrecv 1\nrecv 1\n! 1 4409 \"Subscriber for a already exists\"\nsent 1 {\"type\":\"connection_ack\"}\ndone 1 4409 \"Subscriber for a already exists\"\n",
    ),
    (
        USERS,
        "open 1\nrecv 1 {\"type\":\"connection_init\"}\nrecv 1 {\"type\":\"subscribe\",\"id\":\"aaaaaaaaaaaaaaaaaaaaaaaaaaaaaaaaaaaaaaaaaaaaaaaaaaaaaaaaaaaaaaaaaaaaaaaaaaaaaaaaaaaaaaaaaaaaaaaaaaaaaaaaaaa\u{e9}z\",\"payload\":{\"query\":\"subscription { user { id name } }\"}}\nrecv 1 {\"type\":\"subscribe\",\"id\":\"aaaaaaaaaaaaaaaaaaaaaaaaaaaaaaaaaaaaaaaaaaaaaaaaaaaaaaaaaaaaaaaaaaaaaaaaaaaaaaaaaaaaaaaaaaaaaaaaaaaaaaaaaaa\u{e9}z\",\"payload\":{\"query\":\"subscription { user { id name } }\"}}\n",
        "open 1\nrecv 1\n> 1 {\"type\":\"connection_ack\"}\nrecv 1\nrecv 1\n! 1 4409 \"Subscriber for aaaaaaaaaaaaaaaaaaaaaaaaaaaaaaaaaaaaaaaaaaaaaaaaaaaaaaaaaaaaaaaaaaaaaaaaaaaaaaaaaaaaaaaaaaaaaaaaaaaaaaaaaaa\"\n",
    ),
    (
        USERS,
        "open 1\nrecv 1 hello\n",
        "open 1\nrecv 1\n! 1 4400 \"Invalid message\"\n",
    ),
    (
        USERS,
        "open 1\nbinary 1\n",
        "open 1\nrecv 1\n! 1 4400 \"Invalid message\"\n",
    ),
    (
        "version = 1\nadmin_secret = \"s\"\n[[tables]]\nname = \"user\"\nkey = [\"id\"]\ncolumns = [{ name = \"id\", type = \"int\" }, { name = \"name\", type = \"text\", nullable = true }]\n",
        "open 1\nrecv 1 {\"type\":\"connection_init\",\"payload\":{\"headers\":{\"x-hasura-admin-secret\":\"t\"}}}\n",
        "open 1\nrecv 1\n! 1 4403 \"Forbidden\"\n",
    ),
    (
        USERS,
        "open 1\ntimeout 1\n",
        "open 1\ntimeout 1\n! 1 4408 \"Connection initialisation timeout\"\n",
    ),
    (
        USERS,
        "open 1\nrecv 1 {\"type\":\"connection_init\"}\nrecv 1 {\"type\":\"connection_init\"}\n",
        "open 1\nrecv 1\n> 1 {\"type\":\"connection_ack\"}\nrecv 1\n! 1 4429 \"Too many initialisation requests\"\n",
    ),
    (
        USERS,
        "open 1\nrecv 1 {\"type\":\"subscribe\",\"id\":\"a\",\"payload\":{\"query\":\"subscription { user { id name } }\"}}\n",
        "open 1\nrecv 1\n! 1 4401 \"Unauthorized\"\n",
    ),
];

/// What roles see: two users of one role, two with equal variables, and a usual client.
pub(crate) const ROLES: [Row; 3] = [
    (
        POSTS,
        "commit [{\"insert\":\"post\",\"row\":{\"id\":1,\"author_id\":1,\"title\":\"x\"}},{\"insert\":\"post\",\"row\":{\"id\":2,\"author_id\":2,\"title\":\"y\"}}]\nopen 1\nrecv 1 {\"type\":\"connection_init\",\"payload\":{\"headers\":{\"x-hasura-role\":\"reader\",\"x-hasura-user-id\":\"1\"}}}\nopen 2\nrecv 2 {\"type\":\"connection_init\",\"payload\":{\"headers\":{\"x-hasura-role\":\"reader\",\"x-hasura-user-id\":\"2\"}}}\nrecv 1 {\"type\":\"subscribe\",\"id\":\"p\",\"payload\":{\"query\":\"subscription { post { id title } }\"}}\nrecv 2 {\"type\":\"subscribe\",\"id\":\"p\",\"payload\":{\"query\":\"subscription { post { id title } }\"}}\npoll\n",
        "commit 1\nopen 1\nrecv 1\n> 1 {\"type\":\"connection_ack\"}\nopen 2\nrecv 2\n> 2 {\"type\":\"connection_ack\"}\nrecv 1\nrecv 2\ntick 2\njob 1 version 1 cohorts 2 members 2\npublished 1 version 1\n> 1 {\"type\":\"next\",\"id\":\"p\",\"payload\":{\"data\":{\"post\":[{\"id\":1,\"title\":\"x\"}]}}}\n> 2 {\"type\":\"next\",\"id\":\"p\",\"payload\":{\"data\":{\"post\":[{\"id\":2,\"title\":\"y\"}]}}}\n",
    ),
    (
        POSTS,
        "commit [{\"insert\":\"post\",\"row\":{\"id\":1,\"author_id\":1,\"title\":\"x\"}},{\"insert\":\"post\",\"row\":{\"id\":2,\"author_id\":2,\"title\":\"y\"}}]\nopen 1\nrecv 1 {\"type\":\"connection_init\",\"payload\":{\"headers\":{\"x-hasura-role\":\"reader\",\"x-hasura-user-id\":\"1\"}}}\nopen 2\nrecv 2 {\"type\":\"connection_init\",\"payload\":{\"headers\":{\"x-hasura-role\":\"reader\",\"x-hasura-user-id\":\"1\"}}}\nrecv 1 {\"type\":\"subscribe\",\"id\":\"p\",\"payload\":{\"query\":\"subscription { post { id title } }\"}}\nrecv 2 {\"type\":\"subscribe\",\"id\":\"p\",\"payload\":{\"query\":\"subscription { post { id title } }\"}}\npoll\n",
        "commit 1\nopen 1\nrecv 1\n> 1 {\"type\":\"connection_ack\"}\nopen 2\nrecv 2\n> 2 {\"type\":\"connection_ack\"}\nrecv 1\nrecv 2\ntick 2\njob 1 version 1 cohorts 1 members 2\npublished 1 version 1\n> 1 {\"type\":\"next\",\"id\":\"p\",\"payload\":{\"data\":{\"post\":[{\"id\":1,\"title\":\"x\"}]}}}\n> 2 {\"type\":\"next\",\"id\":\"p\",\"payload\":{\"data\":{\"post\":[{\"id\":1,\"title\":\"x\"}]}}}\n",
    ),
    (
        POSTS,
        "open 1\nrecv 1 {\"type\":\"connection_init\",\"payload\":{\"headers\":{\"x-hasura-role\":\"reader\",\"x-hasura-user-id\":\"1\"}}}\nrecv 1 {\"id\":\"5f1c\",\"type\":\"subscribe\",\"payload\":{\"operationName\":\"Feed\",\"variables\":{\"withPosts\":true},\"extensions\":{},\"query\":\"subscription Feed($n: Int = 2, $withPosts: Boolean!) { user(order_by: [{id: asc}], limit: $n) { ...U __typename } } fragment U on user { id name posts(order_by: {id: desc}) @include(if: $withPosts) { title author { name __typename } } }\"}}\ncommit [{\"insert\":\"user\",\"row\":{\"id\":1,\"name\":\"Ann\"}},{\"insert\":\"user\",\"row\":{\"id\":2,\"name\":\"Bo\"}},{\"insert\":\"user\",\"row\":{\"id\":3,\"name\":\"Cy\"}}]\npoll\ncommit [{\"insert\":\"post\",\"row\":{\"id\":10,\"author_id\":1,\"title\":\"Hi\"}}]\npoll\ncommit [{\"insert\":\"post\",\"row\":{\"id\":11,\"author_id\":2,\"title\":\"Yo\"}}]\npoll\n",
        "open 1\nrecv 1\n> 1 {\"type\":\"connection_ack\"}\nrecv 1\ncommit 1\ntick 1\njob 1 version 1 cohorts 1 members 1\npublished 1 version 1\n> 1 {\"type\":\"next\",\"id\":\"5f1c\",\"payload\":{\"data\":{\"user\":[{\"id\":1,\"name\":\"Ann\",\"posts\":[],\"__typename\":\"user\"},{\"id\":2,\"name\":\"Bo\",\"posts\":[],\"__typename\":\"user\"}]}}}\ncommit 2\ntick 1\njob 2 version 2 cohorts 1 members 1\npublished 2 version 2\n> 1 {\"type\":\"next\",\"id\":\"5f1c\",\"payload\":{\"data\":{\"user\":[{\"id\":1,\"name\":\"Ann\",\"posts\":[{\"title\":\"Hi\",\"author\":{\"name\":\"Ann\",\"__typename\":\"user\"}}],\"__typename\":\"user\"},{\"id\":2,\"name\":\"Bo\",\"posts\":[],\"__typename\":\"user\"}]}}}\ncommit 3\ntick 1\njob 3 version 3 cohorts 1 members 1\npublished 3 version 3\n",
    ),
];

/// Orders, limits, nulls and escapes.
pub(crate) const RESULTS: [Row; 5] = [
    (
        POSTS,
        "commit [{\"insert\":\"user\",\"row\":{\"id\":1,\"name\":\"Ann\"}},{\"insert\":\"user\",\"row\":{\"id\":2}},{\"insert\":\"post\",\"row\":{\"id\":1,\"author_id\":1,\"title\":\"a\"}},{\"insert\":\"post\",\"row\":{\"id\":2,\"author_id\":1,\"title\":\"b\"}},{\"insert\":\"post\",\"row\":{\"id\":3,\"author_id\":2,\"title\":\"c\"}},{\"insert\":\"post\",\"row\":{\"id\":4,\"title\":\"d\"}}]\nopen 1\nrecv 1 {\"type\":\"connection_init\"}\nrecv 1 {\"type\":\"subscribe\",\"id\":\"n\",\"payload\":{\"query\":\"subscription { post_by_pk(id: 4) { id author { id } } }\"}}\npoll\n",
        "commit 1\nopen 1\nrecv 1\n> 1 {\"type\":\"connection_ack\"}\nrecv 1\ntick 1\njob 1 version 1 cohorts 1 members 1\npublished 1 version 1\n> 1 {\"type\":\"next\",\"id\":\"n\",\"payload\":{\"data\":{\"post_by_pk\":{\"id\":4,\"author\":null}}}}\n",
    ),
    (
        POSTS,
        "commit [{\"insert\":\"user\",\"row\":{\"id\":1,\"name\":\"Ann\"}},{\"insert\":\"user\",\"row\":{\"id\":2}},{\"insert\":\"post\",\"row\":{\"id\":1,\"author_id\":1,\"title\":\"a\"}},{\"insert\":\"post\",\"row\":{\"id\":2,\"author_id\":1,\"title\":\"b\"}},{\"insert\":\"post\",\"row\":{\"id\":3,\"author_id\":2,\"title\":\"c\"}},{\"insert\":\"post\",\"row\":{\"id\":4,\"title\":\"d\"}}]\nopen 1\nrecv 1 {\"type\":\"connection_init\"}\nrecv 1 {\"type\":\"subscribe\",\"id\":\"n\",\"payload\":{\"query\":\"subscription { post(where: {_not: {author_id: {_eq: 1}}}) { id author { id } } }\"}}\npoll\n",
        "commit 1\nopen 1\nrecv 1\n> 1 {\"type\":\"connection_ack\"}\nrecv 1\ntick 1\njob 1 version 1 cohorts 1 members 1\npublished 1 version 1\n> 1 {\"type\":\"next\",\"id\":\"n\",\"payload\":{\"data\":{\"post\":[{\"id\":3,\"author\":{\"id\":2}}]}}}\n",
    ),
    (
        POSTS,
        "commit [{\"insert\":\"user\",\"row\":{\"id\":1,\"name\":\"Ann\"}},{\"insert\":\"user\",\"row\":{\"id\":2}},{\"insert\":\"post\",\"row\":{\"id\":1,\"author_id\":1,\"title\":\"a\"}},{\"insert\":\"post\",\"row\":{\"id\":2,\"author_id\":1,\"title\":\"b\"}},{\"insert\":\"post\",\"row\":{\"id\":3,\"author_id\":2,\"title\":\"c\"}},{\"insert\":\"post\",\"row\":{\"id\":4,\"title\":\"d\"}}]\nopen 1\nrecv 1 {\"type\":\"connection_init\"}\nrecv 1 {\"type\":\"subscribe\",\"id\":\"n\",\"payload\":{\"query\":\"subscription { user(order_by: {name: desc}) { id posts(limit: 1, order_by: {id: desc}) { id } } }\"}}\npoll\n",
        "commit 1\nopen 1\nrecv 1\n> 1 {\"type\":\"connection_ack\"}\nrecv 1\ntick 1\njob 1 version 1 cohorts 1 members 1\npublished 1 version 1\n> 1 {\"type\":\"next\",\"id\":\"n\",\"payload\":{\"data\":{\"user\":[{\"id\":2,\"posts\":[{\"id\":3}]},{\"id\":1,\"posts\":[{\"id\":2}]}]}}}\n",
    ),
    (
        "version = 1\n[[tables]]\nname = \"k\"\nkey = [\"id\"]\ncolumns = [{ name = \"id\", type = \"bigint\" }, { name = \"body\", type = \"text\" }]\n",
        "commit [{\"insert\":\"k\",\"row\":{\"id\":9223372036854775807,\"body\":\"\\\"\\u0001\"}},{\"insert\":\"k\",\"row\":{\"id\":-9223372036854775808,\"body\":\"\"}}]\nopen 1\nrecv 1 {\"type\":\"connection_init\"}\nrecv 1 {\"type\":\"subscribe\",\"id\":\"e\",\"payload\":{\"query\":\"subscription { k { id body } }\"}}\npoll\n",
        "commit 1\nopen 1\nrecv 1\n> 1 {\"type\":\"connection_ack\"}\nrecv 1\ntick 1\njob 1 version 1 cohorts 1 members 1\npublished 1 version 1\n> 1 {\"type\":\"next\",\"id\":\"e\",\"payload\":{\"data\":{\"k\":[{\"id\":-9223372036854775808,\"body\":\"\"},{\"id\":9223372036854775807,\"body\":\"\\\"\\u0001\"}]}}}\n",
    ),
    (
        POSTS,
        "open 1\nrecv 1 {\"type\":\"connection_init\",\"payload\":{\"headers\":{\"x-hasura-role\":\"reader\",\"x-hasura-user-id\":\"1\"}}}\nrecv 1 {\"type\":\"subscribe\",\"id\":\"h\",\"payload\":{\"query\":\"subscription { post { note } }\"}}\n",
        "open 1\nrecv 1\n> 1 {\"type\":\"connection_ack\"}\nrecv 1\n> 1 {\"type\":\"error\",\"id\":\"h\",\"payload\":[{\"message\":\"no such field: note\",\"extensions\":{\"code\":\"NoField\"}}]}\n",
    ),
];

/// Streams that meet, equal cursor values past a batch, and a stream and its canonical text.
pub(crate) const STREAMS: [Row; 3] = [
    (
        USERS,
        "commit [{\"insert\":\"user\",\"row\":{\"id\":1}},{\"insert\":\"user\",\"row\":{\"id\":2}},{\"insert\":\"user\",\"row\":{\"id\":3}},{\"insert\":\"user\",\"row\":{\"id\":4}},{\"insert\":\"user\",\"row\":{\"id\":5}}]\nopen 1\nrecv 1 {\"type\":\"connection_init\"}\nrecv 1 {\"type\":\"subscribe\",\"id\":\"x\",\"payload\":{\"query\":\"subscription($f: Int!) { user_stream(batch_size: 5, cursor: {initial_value: {id: $f}}) { id } }\",\"variables\":{\"f\":0}}}\ntick\ntake\nrecv 1 {\"type\":\"subscribe\",\"id\":\"y\",\"payload\":{\"query\":\"subscription($f: Int!) { user_stream(batch_size: 5, cursor: {initial_value: {id: $f}}) { id } }\",\"variables\":{\"f\":5}}}\ntick\ntake\npublish 1\ntick\ncommit [{\"insert\":\"user\",\"row\":{\"id\":6}}]\npublish 2\npoll\n",
        "commit 1\nopen 1\nrecv 1\n> 1 {\"type\":\"connection_ack\"}\nrecv 1\ntick 1\njob 1 version 1 cohorts 1 members 1\nrecv 1\ntick 1\njob 2 version 1 cohorts 1 members 1\npublished 1 version 1\n> 1 {\"type\":\"next\",\"id\":\"x\",\"payload\":{\"data\":{\"user_stream\":[{\"id\":1},{\"id\":2},{\"id\":3},{\"id\":4},{\"id\":5}]}}}\ntick 0\ncommit 2\npublished 2 version 1\ntick 2\njob 3 version 2 cohorts 1 members 2\npublished 3 version 2\n> 1 {\"type\":\"next\",\"id\":\"x\",\"payload\":{\"data\":{\"user_stream\":[{\"id\":6}]}}}\n> 1 {\"type\":\"next\",\"id\":\"y\",\"payload\":{\"data\":{\"user_stream\":[{\"id\":6}]}}}\n",
    ),
    (
        POSTS,
        "commit [{\"insert\":\"post\",\"row\":{\"id\":1,\"title\":\"t\"}},{\"insert\":\"post\",\"row\":{\"id\":2,\"title\":\"t\"}},{\"insert\":\"post\",\"row\":{\"id\":3,\"title\":\"u\"}}]\nopen 1\nrecv 1 {\"type\":\"connection_init\"}\nrecv 1 {\"type\":\"subscribe\",\"id\":\"s\",\"payload\":{\"query\":\"subscription { post_stream(batch_size: 1, cursor: [{initial_value: {title: \\\"\\\"}, ordering: ASC}]) { id title } }\"}}\npoll\npoll\npoll\n",
        "commit 1\nopen 1\nrecv 1\n> 1 {\"type\":\"connection_ack\"}\nrecv 1\ntick 1\njob 1 version 1 cohorts 1 members 1\npublished 1 version 1\n> 1 {\"type\":\"next\",\"id\":\"s\",\"payload\":{\"data\":{\"post_stream\":[{\"id\":1,\"title\":\"t\"}]}}}\ntick 1\njob 2 version 1 cohorts 1 members 1\npublished 2 version 1\n> 1 {\"type\":\"next\",\"id\":\"s\",\"payload\":{\"data\":{\"post_stream\":[{\"id\":3,\"title\":\"u\"}]}}}\ntick 1\njob 3 version 1 cohorts 1 members 1\npublished 3 version 1\n",
    ),
    (
        USERS,
        "commit [{\"insert\":\"user\",\"row\":{\"id\":1}},{\"insert\":\"user\",\"row\":{\"id\":2}},{\"insert\":\"user\",\"row\":{\"id\":3}},{\"insert\":\"user\",\"row\":{\"id\":4}},{\"insert\":\"user\",\"row\":{\"id\":5}}]\nopen 1\nrecv 1 {\"type\":\"connection_init\"}\nrecv 1 {\"type\":\"subscribe\",\"id\":\"x\",\"payload\":{\"query\":\"subscription($f: Int!) { user_stream(batch_size: 5, cursor: {initial_value: {id: $f}}) { id } }\",\"variables\":{\"f\":4}}}\nrecv 1 {\"type\":\"subscribe\",\"id\":\"y\",\"payload\":{\"query\":\"subscription { user_stream(cursor: {initial_value: {id: 4}}, batch_size: 5) { id } }\"}}\npoll\n",
        "commit 1\nopen 1\nrecv 1\n> 1 {\"type\":\"connection_ack\"}\nrecv 1\nrecv 1\ntick 2\njob 1 version 1 cohorts 1 members 2\npublished 1 version 1\n> 1 {\"type\":\"next\",\"id\":\"x\",\"payload\":{\"data\":{\"user_stream\":[{\"id\":5}]}}}\n> 1 {\"type\":\"next\",\"id\":\"y\",\"payload\":{\"data\":{\"user_stream\":[{\"id\":5}]}}}\n",
    ),
];

/// Each refusal with its code and its message.
pub(crate) const REFUSALS: [Row; 12] = [
    (
        USERS,
        "open 1\nrecv 1 {\"type\":\"connection_init\"}\nrecv 1 {\"type\":\"subscribe\",\"id\":\"a\",\"payload\":{\"query\":\"subscription { user(limt: 1) { id } }\"}}\n",
        "open 1\nrecv 1\n> 1 {\"type\":\"connection_ack\"}\nrecv 1\n> 1 {\"type\":\"error\",\"id\":\"a\",\"payload\":[{\"message\":\"bad argument: limt\",\"extensions\":{\"code\":\"NoArgument\"}}]}\n",
    ),
    (
        POSTS,
        "open 1\nrecv 1 {\"type\":\"connection_init\",\"payload\":{\"headers\":{\"x-hasura-role\":\"reader\",\"x-hasura-user-id\":\"abc\"}}}\nrecv 1 {\"type\":\"subscribe\",\"id\":\"p\",\"payload\":{\"query\":\"subscription { post { id title } }\"}}\n",
        "open 1\nrecv 1\n> 1 {\"type\":\"connection_ack\"}\nrecv 1\n> 1 {\"type\":\"error\",\"id\":\"p\",\"payload\":[{\"message\":\"bad session variable: x-hasura-user-id\",\"extensions\":{\"code\":\"BadSession\"}}]}\n",
    ),
    (
        USERS,
        "open 1\nrecv 1 {\"type\":\"connection_init\"}\nrecv 1 {\"type\":\"subscribe\",\"id\":\"a\",\"payload\":{\"query\":\"subscription { user_stream(batch_size: 1, cursor: {initial_value: {name: \\\"a\\\"}}) { id } }\"}}\n",
        "open 1\nrecv 1\n> 1 {\"type\":\"connection_ack\"}\nrecv 1\n> 1 {\"type\":\"error\",\"id\":\"a\",\"payload\":[{\"message\":\"bad cursor: cursor\",\"extensions\":{\"code\":\"BadCursor\"}}]}\n",
    ),
    (
        USERS,
        "open 1\nrecv 1 {\"type\":\"connection_init\"}\nrecv 1 {\"type\":\"subscribe\",\"id\":\"a\",\"payload\":{\"query\":\"subscription { usr { id } }\"}}\n",
        "open 1\nrecv 1\n> 1 {\"type\":\"connection_ack\"}\nrecv 1\n> 1 {\"type\":\"error\",\"id\":\"a\",\"payload\":[{\"message\":\"no such field: usr\",\"extensions\":{\"code\":\"NoField\"}}]}\n",
    ),
    (
        USERS,
        "open 1\nrecv 1 {\"type\":\"connection_init\"}\nrecv 1 {\"type\":\"subscribe\",\"id\":\"a\",\"payload\":{\"query\":\"subscription { ...F }\"}}\n",
        "open 1\nrecv 1\n> 1 {\"type\":\"connection_ack\"}\nrecv 1\n> 1 {\"type\":\"error\",\"id\":\"a\",\"payload\":[{\"message\":\"no such fragment\",\"extensions\":{\"code\":\"UnknownFragment\"}}]}\n",
    ),
    (
        POSTS,
        "open 1\nrecv 1 {\"type\":\"connection_init\",\"payload\":{\"headers\":{\"x-hasura-role\":\"reader\"}}}\nrecv 1 {\"type\":\"subscribe\",\"id\":\"p\",\"payload\":{\"query\":\"subscription { post { id title } }\"}}\n",
        "open 1\nrecv 1\n> 1 {\"type\":\"connection_ack\"}\nrecv 1\n> 1 {\"type\":\"error\",\"id\":\"p\",\"payload\":[{\"message\":\"missing session variable: x-hasura-user-id\",\"extensions\":{\"code\":\"MissingSession\"}}]}\n",
    ),
    (
        USERS,
        "open 1\nrecv 1 {\"type\":\"connection_init\"}\nrecv 1 {\"type\":\"subscribe\",\"id\":\"a\",\"payload\":{\"query\":\"mutation { user { id } }\"}}\n",
        "open 1\nrecv 1\n> 1 {\"type\":\"connection_ack\"}\nrecv 1\n> 1 {\"type\":\"error\",\"id\":\"a\",\"payload\":[{\"message\":\"operation type not served\",\"extensions\":{\"code\":\"NotServed\"}}]}\n",
    ),
    (
        USERS,
        "open 1\nrecv 1 {\"type\":\"connection_init\"}\nrecv 1 {\"type\":\"subscribe\",\"id\":\"a\",\"payload\":{\"query\":\"subscription { user(where: {id: {_eq: null}}) { id } }\"}}\n",
        "open 1\nrecv 1\n> 1 {\"type\":\"connection_ack\"}\nrecv 1\n> 1 {\"type\":\"error\",\"id\":\"a\",\"payload\":[{\"message\":\"null operand: id\",\"extensions\":{\"code\":\"NullOperand\"}}]}\n",
    ),
    (
        USERS,
        "open 1\nrecv 1 {\"type\":\"connection_init\"}\nrecv 1 {\"type\":\"subscribe\",\"id\":\"a\",\"payload\":{\"query\":\"subscription { user { id } user_by_pk(id: 1) { id } }\"}}\n",
        "open 1\nrecv 1\n> 1 {\"type\":\"connection_ack\"}\nrecv 1\n> 1 {\"type\":\"error\",\"id\":\"a\",\"payload\":[{\"message\":\"one root field needed\",\"extensions\":{\"code\":\"NotOneRoot\"}}]}\n",
    ),
    (
        USERS,
        "open 1\nrecv 1 {\"type\":\"connection_init\"}\nrecv 1 {\"type\":\"subscribe\",\"id\":\"a\",\"payload\":{\"query\":\"subscription { user { id } \"}}\n",
        "open 1\nrecv 1\n> 1 {\"type\":\"connection_ack\"}\nrecv 1\n> 1 {\"type\":\"error\",\"id\":\"a\",\"payload\":[{\"message\":\"syntax error at byte 27\",\"extensions\":{\"code\":\"Syntax\"}}]}\n",
    ),
    (
        USERS,
        "open 1\nrecv 1 {\"type\":\"connection_init\"}\nrecv 1 {\"type\":\"subscribe\",\"id\":\"a\",\"payload\":{\"query\":\"subscription { user(limit: -1) { id } }\"}}\n",
        "open 1\nrecv 1\n> 1 {\"type\":\"connection_ack\"}\nrecv 1\n> 1 {\"type\":\"error\",\"id\":\"a\",\"payload\":[{\"message\":\"wrong type: limit\",\"extensions\":{\"code\":\"WrongType\"}}]}\n",
    ),
    (
        USERS,
        "open 1\nrecv 1 {\"type\":\"connection_init\"}\nrecv 1 {\"type\":\"subscribe\",\"id\":\"a\",\"payload\":{\"query\":\"subscription($i: Int!) { user_by_pk(id: $i) { id } }\"}}\n",
        "open 1\nrecv 1\n> 1 {\"type\":\"connection_ack\"}\nrecv 1\n> 1 {\"type\":\"error\",\"id\":\"a\",\"payload\":[{\"message\":\"missing variable: i\",\"extensions\":{\"code\":\"MissingVariable\"}}]}\n",
    ),
];

/// What is drained, and what a report counts.
pub(crate) const QUEUES: [Row; 3] = [
    (
        USERS,
        "commit [{\"insert\":\"user\",\"row\":{\"id\":1}},{\"insert\":\"user\",\"row\":{\"id\":2}},{\"insert\":\"user\",\"row\":{\"id\":1}}]\nreport\n",
        "refused 3 KeyTaken\nreport connections 0 live 0 due 0 jobs 0 version 0\n",
    ),
    (
        USERS,
        "open 1\nrecv 1 {\"type\":\"ping\"}\ndrain 1\ndrain 1\ngone 1\n",
        "open 1\nrecv 1\n> 1 {\"type\":\"pong\"}\nsent 1 {\"type\":\"pong\"}\nempty 1\ngone 1\n",
    ),
    (
        USERS,
        "commit [{\"insert\":\"user\",\"row\":{\"id\":1}},{\"insert\":\"user\",\"row\":{\"id\":2}},{\"insert\":\"user\",\"row\":{\"id\":1}}]\n",
        "refused 3 KeyTaken\n",
    ),
];
