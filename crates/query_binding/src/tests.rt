use crate::{bind, initial_cursor, session_values, text_variables};
use gql_ast::parse;
use gql_flat::flatten;
use gql_lex::tokens;
use json_out::Request;
use name_set::NameSet;
use plan_model::{Binding, Slot};
use query_model::{AdmitFault, FaultKind, SessionSlot, SessionSlotList, SessionValueList};
use request_model::Flat;
use role_model::{Session, StrMap};
use role_schema::Meta;
use scalar_val::{Kind, NoMemory, Str, Val};
use serde_json::Value;
use std::alloc::Global;
use std::test::Fail;
use variable_values::{Variables, read_variables};

fn request(alloc: Global, query: &str, variables: &str) -> Result<Request, Fail> {
    let Ok(variables) = Value::from_str(alloc, variables) else {
        return Err(Fail::from("the variables aren't JSON"));
    };
    Ok(Request {
        query: Str::of(alloc, query)?,
        operation: None,
        variables,
    })
}

fn flat_of(alloc: Global, request: &Request) -> Result<Flat, Fail> {
    let Ok(run) = tokens(alloc, request.query.as_str()) else {
        return Err(Fail::from("no memory"));
    };
    let Ok(document) = parse(alloc, request.query.as_str(), &run) else {
        return Err(Fail::from("no document"));
    };
    match flatten(alloc, &document, request) {
        Ok(flat) => Ok(flat),
        Err(_) => Err(Fail::from("no selection")),
    }
}

fn joined(alloc: Global, names: &[Str]) -> Result<String, NoMemory> {
    let mut joined = String::new(alloc);
    for name in names {
        joined.push_str(name.as_str())?;
        joined.push_str(" ")?;
    }
    Ok(joined)
}

fn names_in_text(alloc: Global, query: &str) -> Result<String, Fail> {
    let request = request(alloc, query, "{}")?;
    let flat = flat_of(alloc, &request)?;
    let names = text_variables(alloc, &flat)?;
    Ok(joined(alloc, names.names())?)
}

#[test]
fn the_variables_of_a_text_come_in_order_and_once(rt: HostRuntime) -> Result<(), Fail> {
    for (query, want) in [
        ("{ a }", ""),
        ("{ a(y: $b, x: $a) { c(z: $b) } }", "a b "),
        (
            "{ a(w: {or: [{x: $c}, {x: [$a, $aa]}]}) { d(x: $B) } }",
            "B a aa c ",
        ),
        ("{ a(x: 1, y: \"$b\", z: $z) b(x: $y) }", "y z "),
        (
            "{ s(cursor: {initial_value: {x: $v}, ordering: $o}, n: $n) }",
            "n o ",
        ),
        (
            "{ s(cursor: [{initial_value: {x: $v}}]) { b(x: $u) } }",
            "u ",
        ),
        (
            "{ s(cursor: {initial_value: $v}, x: {initial_value: {x: $w}}) }",
            "v w ",
        ),
    ] {
        assert_eq!(rt; names_in_text(rt.alloc(), query)?.as_str(), want, "{query}");
    }
    Ok(())
}

/// A session with the variables `x-a` and `x-b`.
fn session(alloc: Global) -> Result<Session, NoMemory> {
    let mut vars = StrMap::new(alloc);
    vars.insert(alloc, Str::of(alloc, "x-a")?, Str::of(alloc, "7")?)?;
    vars.insert(alloc, Str::of(alloc, "x-b")?, Str::of(alloc, "u")?)?;
    Ok(Session {
        role: Str::of(alloc, "reader")?,
        vars,
    })
}

fn slots(alloc: Global, wanted: &[(&str, Kind)]) -> Result<SessionSlotList, NoMemory> {
    let mut slots = SessionSlotList::new(alloc);
    for (name, kind) in wanted {
        let name = Str::of(alloc, name)?;
        slots.add(SessionSlot { name, kind: *kind })?;
    }
    Ok(slots)
}

fn shown(alloc: Global, val: &Val) -> Result<String, NoMemory> {
    match val {
        Val::Null => Ok(String::from_str(alloc, "null ")?),
        Val::Int(number) => Ok(format!(in alloc; "int {number} ")?),
        Val::Big(number) => Ok(format!(in alloc; "bigint {number} ")?),
        Val::Text(text) => Ok(format!(in alloc; "text {} ", text.as_str())?),
        _ => Ok(String::from_str(alloc, "another ")?),
    }
}

fn shown_values(alloc: Global, values: &SessionValueList) -> Result<String, NoMemory> {
    let mut all = String::new(alloc);
    for value in values.as_slice() {
        all.push_str(shown(alloc, &value.value)?.as_str())?;
    }
    Ok(all)
}

/// The values of slots, or the refusal.
fn answer(alloc: Global, wanted: &[(&str, Kind)]) -> Result<String, Fail> {
    match session_values(alloc, &session(alloc)?, slots(alloc, wanted)?) {
        Ok(values) => Ok(shown_values(alloc, &values)?),
        Err(AdmitFault::NoMemory) => Err(Fail::from("no memory")),
        Err(AdmitFault::Refused(fault)) => {
            let missing = fault.kind == FaultKind::MissingSession;
            let word = if missing { "missing" } else { "bad" };
            Ok(format!(in alloc; "{word} {}", fault.name.as_str())?)
        }
    }
}

#[test]
fn a_session_gives_slots_their_values(rt: HostRuntime) -> Result<(), Fail> {
    let alloc = rt.alloc();
    let a_int = ("x-a", Kind::Int);
    let a_text = ("x-a", Kind::Text);
    let b_int = ("x-b", Kind::Int);
    let c_int = ("x-c", Kind::Int);
    assert_eq!(rt; answer(alloc, &[])?.as_str(), "");
    assert_eq!(rt; answer(alloc, &[a_int, a_text])?.as_str(), "int 7 text 7 ");
    assert_eq!(rt; answer(alloc, &[a_int, b_int, c_int])?.as_str(), "bad x-b");
    assert_eq!(rt; answer(alloc, &[c_int, b_int])?.as_str(), "missing x-c");
    Ok(())
}

fn variables_of(alloc: Global, request: &Request, flat: &Flat) -> Result<Variables, Fail> {
    match read_variables(alloc, flat.vars.as_slice(), &request.variables) {
        Ok(variables) => Ok(variables),
        Err(_) => Err(Fail::from("refused")),
    }
}

fn shown_slot(alloc: Global, slot: &Slot) -> Result<String, NoMemory> {
    match slot {
        Slot::One(val) => shown(alloc, val),
        Slot::Many(vals) => Ok(format!(in alloc; "{} values ", vals.len())?),
    }
}

fn shown_binding(alloc: Global, binding: &Binding) -> Result<String, NoMemory> {
    let mut all = String::new(alloc);
    for slot in binding.vars.as_slice() {
        all.push_str(shown_slot(alloc, slot)?.as_str())?;
    }
    all.push_str("| ")?;
    for val in binding.session.as_slice() {
        all.push_str(shown(alloc, val)?.as_str())?;
    }
    all.push_str("| ")?;
    all.push_str(shown(alloc, &binding.cursor)?.as_str())?;
    Ok(all)
}

fn names(alloc: Global, wanted: &[&str]) -> Result<NameSet, NoMemory> {
    let mut names = NameSet::new(alloc);
    for name in wanted {
        names.insert(alloc, Str::of(alloc, name)?)?;
    }
    Ok(names)
}

#[test]
fn a_binding_has_the_values_of_its_slots(rt: HostRuntime) -> Result<(), Fail> {
    let alloc = rt.alloc();
    let query = "query ($a: Int, $b: [Int], $c: String) { x }";
    let request = request(alloc, query, r#"{"a":1,"b":[2,3]}"#)?;
    let flat = flat_of(alloc, &request)?;
    let variables = variables_of(alloc, &request, &flat)?;
    let names = names(alloc, ["b", "a", "c", "d"].as_slice())?;
    let slots = slots(alloc, [("x-a", Kind::Big)].as_slice())?;
    let Ok(session) = session_values(alloc, &session(alloc)?, slots) else {
        return Err(Fail::from("refused"));
    };
    let binding = bind(alloc, &variables, &names, session.as_slice(), Val::Int(9))?;
    assert_eq!(rt;
        shown_binding(alloc, &binding)?.as_str(),
        "2 values int 1 null null | bigint 7 | int 9 "
    );
    Ok(())
}

const POSTS: &str = r#"version = 1
[[tables]]
name = "post"
key = ["id"]
columns = [{ name = "id", type = "int" }, { name = "title", type = "text" }]
"#;

fn cursor_of(alloc: Global, meta: &Meta, query: &str, variables: &str) -> Result<String, Fail> {
    let request = request(alloc, query, variables)?;
    let flat = flat_of(alloc, &request)?;
    let variables = variables_of(alloc, &request, &flat)?;
    let Some(field) = flat.fields.get(0) else {
        return Err(Fail::from("no field"));
    };
    let cursor = initial_cursor(alloc, &variables, &meta.view("admin"), flat.kind, field)?;
    Ok(shown(alloc, &cursor)?)
}

#[test]
fn a_stream_begins_at_its_initial_value(rt: HostRuntime) -> Result<(), Fail> {
    let Ok(meta) = Meta::read(rt.alloc(), POSTS.as_bytes()) else {
        return Err(Fail::from("no metadata"));
    };
    for (query, variables, want) in [
        (
            "subscription { post_stream(cursor: {initial_value: {id: 7}}) { id } }",
            "{}",
            "int 7 ",
        ),
        (
            "subscription { post_stream(cursor: [{initial_value: {title: \"t\"}}]) { id } }",
            "{}",
            "text t ",
        ),
        (
            "subscription ($v: Int) { post_stream(cursor: {initial_value: {id: $v}}) { id } }",
            r#"{"v":3}"#,
            "int 3 ",
        ),
        (
            "subscription { post(cursor: {initial_value: {id: 7}}) { id } }",
            "{}",
            "null ",
        ),
        (
            "query { post_stream(cursor: {initial_value: {id: 7}}) { id } }",
            "{}",
            "null ",
        ),
    ] {
        assert_eq!(rt;
            cursor_of(rt.alloc(), &meta, query, variables)?.as_str(),
            want,
            "{query}"
        );
    }
    Ok(())
}
