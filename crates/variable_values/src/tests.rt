use crate::{Variables, literal_value, read_variables};
use gql_ast::parse;
use gql_lex::tokens;
use plan_model::Slot;
use query_model::{AdmitFault, FaultKind, QueryFault};
use request_model::{Definition, Document, GValue, VarDef};
use scalar_val::{Kind, NoMemory, Val};
use serde_json::Value;
use std::alloc::Global;
use std::test::Fail;

/// A document of one operation with these definitions of variables.
fn document(alloc: Global, definitions: &str) -> Result<Document, Fail> {
    let text = format!(in alloc; "query ({definitions}) {{ a }}")?;
    let Ok(run) = tokens(alloc, text.as_str()) else {
        return Err(Fail::from("no memory"));
    };
    match parse(alloc, text.as_str(), &run) {
        Ok(document) => Ok(document),
        Err(_) => Err(Fail::from("no document")),
    }
}

fn definitions_of(document: &Document) -> &[VarDef] {
    match document.definitions.as_slice() {
        [Definition::Operation { vars, .. }] => vars.as_slice(),
        _ => &[],
    }
}

fn read(
    alloc: Global,
    definitions: &str,
    values: &str,
) -> Result<Result<Variables, QueryFault>, Fail> {
    let document = document(alloc, definitions)?;
    let Ok(values) = Value::from_str(alloc, values) else {
        return Err(Fail::from("the variables aren't JSON"));
    };
    match read_variables(alloc, definitions_of(&document), &values) {
        Ok(variables) => Ok(Ok(variables)),
        Err(AdmitFault::Refused(fault)) => Ok(Err(fault)),
        Err(AdmitFault::NoMemory) => Err(Fail::from("no memory")),
    }
}

fn shown_val(alloc: Global, val: &Val) -> Result<String, NoMemory> {
    match val {
        Val::Null => Ok(String::from_str(alloc, "null")?),
        Val::Bool(truth) => Ok(format!(in alloc; "{truth}")?),
        Val::Int(number) => Ok(format!(in alloc; "int {number}")?),
        Val::Big(number) => Ok(format!(in alloc; "bigint {number}")?),
        Val::Text(text) => Ok(format!(in alloc; "text {}", text.as_str())?),
        Val::Uuid(number) => Ok(format!(in alloc; "uuid {number}")?),
    }
}

fn shown_list(alloc: Global, vals: &[Val]) -> Result<String, NoMemory> {
    let mut shown = String::from_str(alloc, "[")?;
    for (index, val) in vals.iter().enumerate() {
        if index > 0 {
            shown.push_str(", ")?;
        }
        shown.push_str(shown_val(alloc, val)?.as_str())?;
    }
    shown.push_str("]")?;
    Ok(shown)
}

fn shown_slot(alloc: Global, slot: &Slot) -> Result<String, NoMemory> {
    match slot {
        Slot::One(val) => shown_val(alloc, val),
        Slot::Many(vals) => shown_list(alloc, vals.as_slice()),
    }
}

fn shown_variables(alloc: Global, variables: &Variables) -> Result<String, NoMemory> {
    let mut shown = String::new(alloc);
    for (index, variable) in variables.list().iter().enumerate() {
        if index > 0 {
            shown.push_str("; ")?;
        }
        shown.push_str(variable.name.as_str())?;
        shown.push_str(": ")?;
        shown.push_str(shown_slot(alloc, &variable.value)?.as_str())?;
    }
    Ok(shown)
}

fn shown_fault(alloc: Global, fault: &QueryFault) -> Result<String, NoMemory> {
    let word = match fault.kind {
        FaultKind::MissingVariable => "missing",
        FaultKind::WrongType => "wrong type",
        _ => "another fault",
    };
    Ok(format!(in alloc; "{word}: {}", fault.name.as_str())?)
}

/// Each variable with its value, or the refusal.
fn answer(alloc: Global, definitions: &str, values: &str) -> Result<String, Fail> {
    match read(alloc, definitions, values)? {
        Ok(variables) => Ok(shown_variables(alloc, &variables)?),
        Err(fault) => Ok(shown_fault(alloc, &fault)?),
    }
}

/// The first case whose answer is another, with that answer.
fn wrong_case(alloc: Global, cases: &[(&str, &str, &str)]) -> Result<Option<String>, Fail> {
    for (definitions, values, want) in cases {
        let answer = answer(alloc, definitions, values)?;
        if answer.as_str() != *want {
            return Ok(Some(format!(in alloc; "{definitions} with {values}: {}", answer.as_str())?));
        }
    }
    Ok(None)
}

#[test]
fn a_value_fits_its_type(rt: HostRuntime) -> Result<(), Fail> {
    let cases = [
        ("$a: Int", r#"{"a":1}"#, "a: int 1"),
        ("$a: Int", r#"{"a":null}"#, "a: null"),
        ("$a: Int!", r#"{"a":null}"#, "missing: a"),
        ("$a: Int!", r#"{"a":"1"}"#, "wrong type: a"),
        ("$a: Int!", r#"{"a":[1,null]}"#, "wrong type: a"),
        ("$a: Int", r#"{"a":2147483648}"#, "wrong type: a"),
        ("$a: [Int]", r#"{"a":1}"#, "a: [int 1]"),
        ("$a: [Int]", r#"{"a":[1,null]}"#, "a: [int 1, null]"),
        ("$a: [Int!]", r#"{"a":[1,null]}"#, "wrong type: a"),
        ("$a: [Int]", r#"{"a":null}"#, "a: null"),
        ("$a: [Int]!", r#"{"a":null}"#, "missing: a"),
        ("$a: [Int!]!", r#"{"a":[]}"#, "a: []"),
        ("$a: bigint!", r#"{"a":"-12"}"#, "a: bigint -12"),
        ("$a: Boolean!", r#"{"a":true}"#, "a: true"),
        ("$a: String", r#"{"a":"x"}"#, "a: text x"),
        ("$a: String", r#"{"a":1}"#, "wrong type: a"),
        (
            "$a: uuid",
            r#"{"a":"00000000-0000-0000-0000-000000000007"}"#,
            "a: uuid 7",
        ),
        ("$a: int", r#"{"a":1}"#, "wrong type: a"),
        ("$a: [[Int]]", r#"{"a":1}"#, "wrong type: a"),
    ];
    assert_eq!(rt; wrong_case(rt.alloc(), cases.as_slice())?, None);
    Ok(())
}

#[test]
fn a_default_counts_where_nothing_is_given(rt: HostRuntime) -> Result<(), Fail> {
    let cases = [
        ("$a: Int! = 1", "{}", "a: int 1"),
        ("$a: Int! = 1", r#"{"a":2}"#, "a: int 2"),
        ("$a: Int! = 1", r#"{"a":null}"#, "missing: a"),
        ("$a: Int!", "{}", "missing: a"),
        ("$a: Int", "{}", "a: null"),
        ("$a: Int", "null", "a: null"),
        ("$a: Int! = \"1\"", "{}", "wrong type: a"),
        ("$a: Int! = \"x\"", r#"{"a":1}"#, "a: int 1"),
        ("$a: [Int] = [1, null]", "{}", "a: [int 1, null]"),
        ("$a: [Int] = 1", "{}", "a: [int 1]"),
        (
            "$a: Int, $b: String = \"y\"",
            r#"{"c":3}"#,
            "a: null; b: text y",
        ),
        ("$b: int, $a: Int!", "{}", "wrong type: b"),
        ("$a: Int!, $b: int", "{}", "missing: a"),
    ];
    assert_eq!(rt; wrong_case(rt.alloc(), cases.as_slice())?, None);
    Ok(())
}

fn named(alloc: Global, variables: &Variables, name: &str) -> Result<String, NoMemory> {
    match variables.named(name) {
        Some(variable) => shown_slot(alloc, &variable.value),
        None => Ok(String::from_str(alloc, "none")?),
    }
}

#[test]
fn a_variable_is_found_by_its_name(rt: HostRuntime) -> Result<(), Fail> {
    let alloc = rt.alloc();
    let Ok(variables) = read(alloc, "$b: Int = 1, $a: Int = 2, $b: Int = 3", "{}")? else {
        return Err(Fail::from("refused"));
    };
    for (name, want) in [("a", "int 2"), ("b", "int 1"), ("", "none"), ("c", "none")] {
        assert_eq!(rt; named(alloc, &variables, name)?.as_str(), want);
    }
    Ok(())
}

/// The default of the first variable.
fn default_of(document: &Document) -> Option<&GValue> {
    definitions_of(document).first()?.default.as_ref()
}

fn literal_shown(alloc: Global, kind: Kind, text: &str) -> Result<String, Fail> {
    let document = document(alloc, format!(in alloc; "$a: Int = {text}")?.as_str())?;
    let Some(value) = default_of(&document) else {
        return Err(Fail::from("no literal"));
    };
    let val = literal_value(alloc, kind, value)?;
    Ok(shown_val(alloc, &val)?)
}

#[test]
fn a_literal_has_a_value_of_a_kind_or_null(rt: HostRuntime) -> Result<(), Fail> {
    for (text, kind, want) in [
        ("7", Kind::Int, "int 7"),
        ("7", Kind::Big, "bigint 7"),
        ("\"7\"", Kind::Big, "bigint 7"),
        ("\"7\"", Kind::Text, "text 7"),
        ("7", Kind::Text, "null"),
        ("true", Kind::Bool, "true"),
        ("null", Kind::Int, "null"),
        ("[7]", Kind::Int, "null"),
        ("E", Kind::Text, "null"),
    ] {
        assert_eq!(rt; literal_shown(rt.alloc(), kind, text)?.as_str(), want);
    }
    Ok(())
}
