use crate::{Meta, MetaFault, MetaReadFault, RoleView};
use std::alloc::Global;

const TWO_TABLES: &str = r#"version = 1
[[tables]]
name = "user"
key = ["id"]
columns = [{ name = "id", type = "int" }, { name = "name", type = "text", nullable = true }]
array = [{ name = "posts", table = "post", from = ["id"], to = ["author_id"] }]
select = [{ role = "reader", columns = ["id", "name"], filter = "{}" }]

[[tables]]
name = "post"
key = ["id"]
columns = [{ name = "id", type = "int" }, { name = "author_id", type = "int", nullable = true }, { name = "title", type = "text" }, { name = "note", type = "text", nullable = true }]
object = [{ name = "author", table = "user", from = ["author_id"], to = ["id"] }]
select = [{ role = "reader", columns = ["id", "author_id", "title"], filter = '{"author_id":{"_eq":"X-Hasura-User-Id"}}' }]
"#;

fn refusal(alloc: Global, text: &str) -> Option<MetaFault> {
    match Meta::read(alloc, text.as_bytes()) {
        Ok(_meta) => None,
        Err(MetaReadFault::Refused(fault)) => Some(fault),
        Err(MetaReadFault::NoMemory) => None,
    }
}

fn is_read(alloc: Global, text: &str) -> bool {
    Meta::read(alloc, text.as_bytes()).is_ok()
}

/// One table `user` of the columns `id` and `name`, which may be null, with more lines at the end.
fn refusal_of_user(alloc: Global, lines: &str) -> Option<MetaFault> {
    let Ok(mut text) = String::from_str(
        alloc,
        "version = 1\n[[tables]]\nname = \"user\"\ncolumns = [{ name = \"id\", type = \"int\" }, { name = \"name\", type = \"text\", nullable = true }]\n",
    ) else {
        return None;
    };
    if text.push_str(lines).is_err() {
        return None;
    }
    refusal(alloc, text.as_str())
}

fn is_send_and_sync<T: Send + Sync>() {}

#[test]
fn metadata_may_be_shared_with_other_threads() {
    is_send_and_sync::<Meta>();
    is_send_and_sync::<RoleView<'static>>();
}

#[test]
fn a_wrong_key_of_a_table_is_refused(rt: HostRuntime) {
    let alloc = rt.alloc();
    for (lines, want) in [
        ("", MetaFault::BadForm),
        ("key = []\n", MetaFault::BadForm),
        ("key = [\"no\"]\n", MetaFault::NoColumn),
        ("key = [\"name\"]\n", MetaFault::BadKind),
        ("key = [\"id\", \"id\"]\n", MetaFault::Duplicate),
    ] {
        assert!(rt; refusal_of_user(alloc, lines) == Some(want), "{lines}");
    }
    assert!(rt; refusal_of_user(alloc, "key = [\"id\"]\n").is_none());
}

#[test]
fn keys_and_values_have_their_forms(rt: HostRuntime) {
    let alloc = rt.alloc();
    for (text, want) in [
        ("version = ", MetaFault::Toml),
        ("version = 1\nversion = 1\ntables = []\n", MetaFault::Toml),
        ("version = 3\ntables = []\n", MetaFault::BadVersion),
        ("tables = []\n", MetaFault::BadForm),
        ("version = 1\n", MetaFault::BadForm),
        ("version = 1.0\ntables = []\n", MetaFault::BadForm),
        ("version = 1\ntables = []\nsize = 1\n", MetaFault::BadForm),
        ("version = 1\ntables = [1]\n", MetaFault::BadForm),
        (
            "version = 1\ntables = []\nbatch_size = 0\n",
            MetaFault::BadForm,
        ),
        (
            "version = 1\ntables = []\nbatch_size = 1001\n",
            MetaFault::BadForm,
        ),
        (
            "version = 1\ntables = []\nrefetch_ms = 3600001\n",
            MetaFault::BadForm,
        ),
        (
            "version = 1\ntables = []\nunauthorized_role = \"\"\n",
            MetaFault::BadForm,
        ),
    ] {
        assert!(rt; refusal(alloc, text) == Some(want), "{text}");
    }
    assert!(rt;
        is_read(
            alloc,
            "version = 1\ntables = []\nbatch_size = 1000\nrefetch_ms = 3600000\nadmin_secret = \"\"\nunauthorized_role = \"admin\"\n"
        )
    );
    assert!(rt; is_read(alloc, TWO_TABLES));
}

#[test]
fn names_and_relationships_have_their_faults(rt: HostRuntime) {
    let alloc = rt.alloc();
    for (lines, want) in [
        (
            "key = [\"id\"]\n[[tables]]\nname = \"__a\"\nkey = [\"b\"]\ncolumns = [{ name = \"b\", type = \"int\" }]\n",
            MetaFault::BadName,
        ),
        (
            "key = [\"id\"]\nobject = [{ name = \"a b\", table = \"user\", from = [\"id\"], to = [\"id\"] }]\n",
            MetaFault::BadName,
        ),
        (
            "key = [\"id\"]\nobject = [{ name = \"id\", table = \"user\", from = [\"id\"], to = [\"id\"] }]\n",
            MetaFault::Duplicate,
        ),
        (
            "key = [\"id\"]\n[[tables]]\nname = \"user_by_pk\"\nkey = [\"b\"]\ncolumns = [{ name = \"b\", type = \"int\" }]\n",
            MetaFault::Duplicate,
        ),
        (
            "key = [\"id\"]\nobject = [{ name = \"up\", table = \"post\", from = [\"id\"], to = [\"id\"] }]\n",
            MetaFault::NoTable,
        ),
        (
            "key = [\"id\"]\nobject = [{ name = \"up\", table = \"user\", from = [\"id\"], to = [\"no\"] }]\n",
            MetaFault::NoColumn,
        ),
        (
            "key = [\"id\"]\nobject = [{ name = \"up\", table = \"user\", from = [\"id\"], to = [\"id\", \"name\"] }]\n",
            MetaFault::BadKind,
        ),
        (
            "key = [\"id\"]\narray = [{ name = \"up\", table = \"user\", from = [\"id\"], to = [\"name\"] }]\n",
            MetaFault::BadKind,
        ),
        ("key = [\"id\"]\nunique = [\"no\"]\n", MetaFault::NoColumn),
        ("key = [\"id\"]\nmax_rows = 0\n", MetaFault::BadForm),
    ] {
        assert!(rt; refusal_of_user(alloc, lines) == Some(want), "{lines}");
    }
    assert!(rt;
        refusal_of_user(
            alloc,
            "key = [\"id\"]\nunique = [\"id\", \"name\"]\nmax_rows = 1\n"
        )
        .is_none()
    );
}

#[test]
fn permissions_have_their_faults(rt: HostRuntime) {
    let alloc = rt.alloc();
    for (lines, want) in [
        (
            "key = [\"id\"]\nselect = [{ role = \"admin\", columns = [], filter = \"{}\" }]\n",
            MetaFault::BadRole,
        ),
        (
            "key = [\"id\"]\nselect = [{ role = \"r\", columns = [\"no\"], filter = \"{}\" }]\n",
            MetaFault::NoColumn,
        ),
        (
            "key = [\"id\"]\nselect = [{ role = \"r\", columns = [\"id\", \"id\"], filter = \"{}\" }]\n",
            MetaFault::Duplicate,
        ),
        (
            "key = [\"id\"]\nselect = [{ role = \"r\", columns = [], filter = \"{\" }]\n",
            MetaFault::BadForm,
        ),
        (
            "key = [\"id\"]\nselect = [{ role = \"r\", columns = [], filter = \"[]\" }]\n",
            MetaFault::BadFilter,
        ),
        (
            "key = [\"id\"]\nselect = [{ role = \"r\", columns = [], filter = '{\"id\":{\"_in\":[\"x-hasura-a\"]}}' }]\n",
            MetaFault::BadFilter,
        ),
        (
            "key = [\"id\"]\nselect = [{ role = \"r\", columns = [], filter = '{\"id\":{\"_eq\":null}}' }]\n",
            MetaFault::BadFilter,
        ),
        (
            "key = [\"id\"]\nselect = [{ role = \"r\", columns = [], filter = '{\"id\":{\"_eq\":\"1\"}}' }]\n",
            MetaFault::BadFilter,
        ),
        (
            "key = [\"id\"]\nselect = [{ role = \"r\", columns = [], filter = '{\"id\":{\"_is_null\":\"x-hasura-a\"}}' }]\n",
            MetaFault::BadFilter,
        ),
        (
            "key = [\"id\"]\nselect = [{ role = \"r\", columns = [], filter = '{\"_not\":[]}' }]\n",
            MetaFault::BadFilter,
        ),
    ] {
        assert!(rt; refusal_of_user(alloc, lines) == Some(want), "{lines}");
    }
    assert!(rt;
        refusal_of_user(
            alloc,
            "key = [\"id\"]\nselect = [{ role = \"r\", columns = [], limit = 0, filter = '{\"_or\":[{\"id\":{\"_gt\":1,\"_lt\":9}},{\"_not\":{\"name\":{\"_nin\":[\"a\",\"b\"]}}}],\"name\":{\"_is_null\":false}}' }]\n"
        )
        .is_none()
    );
}

#[test]
fn of_two_faults_the_first_of_the_list_counts(rt: HostRuntime) {
    let alloc = rt.alloc();
    for (lines, want) in [
        (
            "key = [\"no\"]\nobject = [{ name = \"up\", table = \"post\", from = [\"id\"], to = [\"id\"] }]\n",
            MetaFault::NoTable,
        ),
        (
            "key = [\"no\", \"no\"]\nobject = [{ name = \"__up\", table = \"post\", from = [\"id\"], to = [\"id\"] }]\n",
            MetaFault::BadName,
        ),
        ("key = [\"no\", \"no\"]\n", MetaFault::Duplicate),
        ("key = [\"name\"]\nunique = [\"no\"]\n", MetaFault::NoColumn),
        (
            "key = [\"name\"]\nselect = [{ role = \"admin\", columns = [], filter = \"[]\" }]\n",
            MetaFault::BadKind,
        ),
        (
            "key = [\"id\"]\nselect = [{ role = \"admin\", columns = [], filter = \"[]\" }]\n",
            MetaFault::BadRole,
        ),
    ] {
        assert!(rt; refusal_of_user(alloc, lines) == Some(want), "{lines}");
    }
    assert!(rt; refusal(alloc, "version = 3\ntables = [{}]\n") == Some(MetaFault::BadForm));
}

fn refusal_of_columns(alloc: Global, count: usize) -> Option<MetaFault> {
    let Ok(mut text) = String::from_str(
        alloc,
        "version = 1\n[[tables]]\nname = \"user\"\nkey = [\"id\"]\ncolumns = [",
    ) else {
        return None;
    };
    for _ in 0..count {
        if text
            .push_str("{ name = \"id\", type = \"int\" }, ")
            .is_err()
        {
            return None;
        }
    }
    if text.push_str("]\n").is_err() {
        return None;
    }
    refusal(alloc, text.as_str())
}

#[test]
fn a_table_has_at_most_64_columns(rt: HostRuntime) {
    let alloc = rt.alloc();
    assert!(rt; refusal_of_columns(alloc, 1).is_none());
    assert!(rt; refusal_of_columns(alloc, 64) == Some(MetaFault::Duplicate));
    assert!(rt; refusal_of_columns(alloc, 65) == Some(MetaFault::TooMany));
}

fn refusal_of_comment(alloc: Global, length: usize) -> Option<MetaFault> {
    let mut text = Vec::new(alloc);
    for _ in 0..length {
        if text.push(b'#').is_err() {
            return None;
        }
    }
    match Meta::read(alloc, text.as_slice()) {
        Err(MetaReadFault::Refused(fault)) => Some(fault),
        _ => None,
    }
}

#[test]
fn a_text_has_at_most_1048576_bytes(rt: HostRuntime) {
    let alloc = rt.alloc();
    assert!(rt; refusal_of_comment(alloc, 1048576) == Some(MetaFault::BadForm));
    assert!(rt; refusal_of_comment(alloc, 1048577) == Some(MetaFault::TooLong));
}

#[test]
fn settings_have_their_defaults(rt: HostRuntime) {
    let alloc = rt.alloc();
    let Ok(meta) = Meta::read(alloc, b"version = 1\ntables = []\n") else {
        assert!(rt; false, "no table is allowed");
        return;
    };
    assert!(rt; meta.batch_size() == 100);
    assert!(rt; meta.refetch_ms() == 1000);
    assert!(rt; meta.secret().is_none());
    assert!(rt; meta.unauthorized_role().is_none());
}

#[test]
fn settings_are_read(rt: HostRuntime) {
    let alloc = rt.alloc();
    let Ok(meta) = Meta::read(
        alloc,
        b"version = 1\nbatch_size = 7\nadmin_secret = \"s\"\nunauthorized_role = \"guest\"\ntables = []\n",
    ) else {
        assert!(rt; false, "settings are allowed");
        return;
    };
    assert!(rt; meta.batch_size() == 7);
    assert!(rt; meta.secret() == Some("s"));
    assert!(rt; meta.unauthorized_role() == Some("guest"));
}

#[test]
fn a_role_sees_the_tables_and_columns_of_its_permissions(rt: HostRuntime) {
    let alloc = rt.alloc();
    let Ok(meta) = Meta::read(alloc, TWO_TABLES.as_bytes()) else {
        assert!(rt; false, "two tables are metadata");
        return;
    };
    let reader = meta.view("reader");
    assert!(rt; reader.table("post") == Some(1));
    assert!(rt; reader.table("none").is_none());
    assert!(rt; reader.column(1, "title") == Some(2));
    assert!(rt; reader.column(1, "note").is_none());
    assert!(rt; reader.key_visible(1));
}

#[test]
fn a_role_has_the_filters_of_its_permissions(rt: HostRuntime) {
    let alloc = rt.alloc();
    let Ok(meta) = Meta::read(alloc, TWO_TABLES.as_bytes()) else {
        assert!(rt; false, "two tables are metadata");
        return;
    };
    let reader = meta.view("reader");
    assert!(rt; reader.link(0, "posts").is_some());
    assert!(rt; reader.link(0, "author").is_none());
    assert!(rt; reader.filter(1).is_some());
    assert!(rt; reader.cap(1).is_none());
    assert!(rt; reader.session_name(0) == Some("x-hasura-user-id"));
    assert!(rt; reader.session_name(1).is_none());
}

#[test]
fn admin_sees_everything(rt: HostRuntime) {
    let alloc = rt.alloc();
    let Ok(meta) = Meta::read(alloc, TWO_TABLES.as_bytes()) else {
        assert!(rt; false, "two tables are metadata");
        return;
    };
    let admin = meta.view("admin");
    assert!(rt; admin.column(1, "note") == Some(3));
    assert!(rt; admin.link(1, "author").is_some());
    assert!(rt; admin.filter(1).is_none());
    assert!(rt; admin.session_name(0).is_none());
}

#[test]
fn a_role_without_permissions_sees_nothing(rt: HostRuntime) {
    let alloc = rt.alloc();
    let Ok(meta) = Meta::read(alloc, TWO_TABLES.as_bytes()) else {
        assert!(rt; false, "two tables are metadata");
        return;
    };
    let other = meta.view("other");
    assert!(rt; other.table("user").is_none());
    assert!(rt; other.column(0, "id").is_none());
    assert!(rt; !other.key_visible(0));
}
