use gql_ast::parse;
use gql_flat::{canon, flatten};
use gql_lex::tokens;
use json_out::Request;
use request_model::{Flat, FlatFault};
use scalar_val::{NoMemory, Str};
use serde_json::Value;
use std::alloc::Global;
use std::test::Fail;

fn request_of(
    alloc: Global,
    query: &str,
    operation: &str,
    variables: &str,
) -> Result<Request, Fail> {
    let query = Str::of(alloc, query)?;
    let operation = if operation.is_empty() {
        None
    } else {
        Some(Str::of(alloc, operation)?)
    };
    let Ok(variables) = Value::from_str(alloc, variables) else {
        return Err(Fail::from("the variables aren't JSON"));
    };
    Ok(Request {
        query,
        operation,
        variables,
    })
}

fn flat_of(alloc: Global, request: &Request) -> Result<Result<Flat, FlatFault>, Fail> {
    let Ok(run) = tokens(alloc, request.query.as_str()) else {
        return Err(Fail::from("no memory"));
    };
    let Ok(document) = parse(alloc, request.query.as_str(), &run) else {
        return Err(Fail::from("no document"));
    };
    Ok(flatten(alloc, &document, request))
}

/// The canonical text, or the name of the fault.
fn answer(alloc: Global, query: &str, operation: &str, variables: &str) -> Result<Str, Fail> {
    let request = request_of(alloc, query, operation, variables)?;
    match flat_of(alloc, &request)? {
        Ok(flat) => Ok(canon(alloc, &flat)?),
        Err(fault) => Ok(Str::of(alloc, name_of(fault))?),
    }
}

fn name_of(fault: FlatFault) -> &'static str {
    match fault {
        FlatFault::NoOperation => "NoOperation",
        FlatFault::AmbiguousOperation => "AmbiguousOperation",
        FlatFault::NotServed => "NotServed",
        FlatFault::UnknownFragment => "UnknownFragment",
        FlatFault::FragmentCycle => "FragmentCycle",
        FlatFault::NoDirective => "NoDirective",
        FlatFault::NotBoolean => "NotBoolean",
        FlatFault::TooLarge => "TooLarge",
        FlatFault::Conflict => "Conflict",
        FlatFault::NoMemory => "NoMemory",
    }
}

/// The first case with another answer: the query, the wanted operation or "", the variables, and the answer.
fn wrong_case(alloc: Global, cases: &[(&str, &str, &str, &str)]) -> Result<Option<usize>, Fail> {
    for (index, (query, operation, variables, expected)) in cases.iter().enumerate() {
        if answer(alloc, query, operation, variables)?.as_str() != *expected {
            return Ok(Some(index));
        }
    }
    Ok(None)
}

#[test]
fn the_first_fault(rt: HostRuntime) -> Result<(), Fail> {
    let cases = [
        ("query A{a} query B{a}", "", "null", "AmbiguousOperation"),
        ("query A{a} query B{a}", "C", "null", "NoOperation"),
        ("fragment F on user {a}", "", "null", "NoOperation"),
        ("mutation { a }", "", "null", "NotServed"),
        (
            "{ ...F ...G } fragment F on user { ...F }",
            "",
            "null",
            "UnknownFragment",
        ),
        (
            "{ ...F } fragment F on user { ...F }",
            "",
            "null",
            "FragmentCycle",
        ),
        ("{ a @defer }", "", "null", "NoDirective"),
        (
            "query ($a: Int @skip(if: true)) { a }",
            "",
            "null",
            "NoDirective",
        ),
        ("{ a @skip(if: 1) }", "", "null", "NotBoolean"),
        (
            "query ($a: Int = true) { a @skip(if: $a) }",
            "",
            "{\"a\":null}",
            "NotBoolean",
        ),
        ("{ a: b a: c }", "", "null", "Conflict"),
        (
            "{ a(x: 1, y: 2) a(y: 2, x: 1) a(x: 2, y: 2) }",
            "",
            "null",
            "Conflict",
        ),
        ("query A{a} query B{a} query B{a}", "A", "null", "Conflict"),
        ("query ($a: Int, $a: Int) { a }", "", "null", "Conflict"),
        (
            "{ a } fragment F on T {a} fragment F on T {b}",
            "",
            "null",
            "Conflict",
        ),
    ];
    assert_eq!(rt; wrong_case(rt.alloc(), &cases)?, None);
    Ok(())
}

#[test]
fn canonical_texts(rt: HostRuntime) -> Result<(), Fail> {
    let cases = [
        ("{ u { a } u { b a } }", "", "null", "query u:u{a:a b:b}"),
        (
            "subscription($f: Int!) { user_stream(batch_size: 5, cursor: {initial_value: {id: $f}}) { id } }",
            "",
            "{\"f\":3}",
            "subscription user_stream:user_stream(batch_size:5,cursor:{initial_value:{id:_}}){id:id}",
        ),
        (
            "query A{a} query B{x: b(z: [true, E, null], y: {q: \"\\n\", p: -1}, x: $v)}",
            "B",
            "{}",
            "query x:b(x:$v,y:{q:\"\\n\",p:-1},z:[true,E,null])",
        ),
        (
            "query ($s: Boolean = true) { a { b @skip(if: $s) } c @include(if: $s) d @include(if: false) }",
            "",
            "{\"s\":true}",
            "query a:a{} c:c",
        ),
        (
            "{ u { ...F ...F ... on T {d} ...F @skip(if: true) } } fragment F on T {a b: a ...G} fragment G on T {c a}",
            "",
            "null",
            "query u:u{a:a b:a c:c d:d}",
        ),
    ];
    assert_eq!(rt; wrong_case(rt.alloc(), &cases)?, None);
    Ok(())
}

/// A chain of so many fields, each within the one before.
fn chain(alloc: Global, levels: u32) -> Result<String, Fail> {
    let mut text = String::new(alloc);
    for _ in 0..levels {
        text.push_str("{a")?;
    }
    for _ in 0..levels {
        text.push_str("}")?;
    }
    Ok(text)
}

/// So many fields side by side.
fn row(alloc: Global, fields: u32) -> Result<String, Fail> {
    let mut text = String::from_str(alloc, "{")?;
    for number in 0..fields {
        text.push_str("a")?;
        text.push_str(number.to_string(alloc)?.as_str())?;
        text.push_str(" ")?;
    }
    text.push_str("}")?;
    Ok(text)
}

/// Whether the selection is too large.
fn is_too_large(alloc: Global, query: &str) -> Result<bool, Fail> {
    let request = request_of(alloc, query, "", "{}")?;
    match flat_of(alloc, &request)? {
        Ok(_) => Ok(false),
        Err(fault) => Ok(fault == FlatFault::TooLarge),
    }
}

#[test]
fn twelve_levels_and_4096_fields(rt: HostRuntime) -> Result<(), Fail> {
    assert!(rt; !is_too_large(rt.alloc(), chain(rt.alloc(), 12)?.as_str())?);
    assert!(rt; is_too_large(rt.alloc(), chain(rt.alloc(), 13)?.as_str())?);
    assert!(rt; !is_too_large(rt.alloc(), row(rt.alloc(), 4096)?.as_str())?);
    assert!(rt; is_too_large(rt.alloc(), row(rt.alloc(), 4097)?.as_str())?);
    Ok(())
}

fn put_number(alloc: Global, number: u32, text: &mut String) -> Result<(), Fail> {
    text.push_str(number.to_string(alloc)?.as_str())?;
    Ok(())
}

fn put_times(piece: &str, times: u32, text: &mut String) -> Result<(), Fail> {
    for _ in 0..times {
        text.push_str(piece)?;
    }
    Ok(())
}

/// Puts the spread of the fragment before this one, or a field where it is the first.
fn put_spread(alloc: Global, number: u32, text: &mut String) -> Result<(), Fail> {
    if number == 0 {
        text.push_str("a")?;
        return Ok(());
    }
    text.push_str("...F")?;
    put_number(alloc, number - 1, text)
}

/// Puts a fragment that spreads the one before it within so many inline fragments.
fn put_fragment(alloc: Global, number: u32, inlines: u32, text: &mut String) -> Result<(), Fail> {
    text.push_str("fragment F")?;
    put_number(alloc, number, text)?;
    text.push_str(" on B{")?;
    put_times("...{", inlines, text)?;
    put_spread(alloc, number, text)?;
    put_times("}", inlines, text)?;
    text.push_str("}")?;
    Ok(())
}

/// A query, and a chain of so many fragments, each of which spreads the one before it within so many inline fragments.
fn with_chain(alloc: Global, query: &str, fragments: u32, inlines: u32) -> Result<String, Fail> {
    let mut text = String::from_str(alloc, query)?;
    for number in 0..fragments {
        put_fragment(alloc, number, inlines, &mut text)?;
    }
    Ok(text)
}

#[test]
fn a_chain_of_fragments_of_any_depth_is_collected(rt: HostRuntime) -> Result<(), Fail> {
    for (query, fragments, inlines) in [("{...F1999}", 2000, 0), ("{...F189}", 190, 62)] {
        let text = with_chain(rt.alloc(), query, fragments, inlines)?;
        let found = answer(rt.alloc(), text.as_str(), "", "null")?;
        assert!(rt; text.len() < 65536);
        assert_eq!(rt; found.as_str(), "query a:a");
    }
    Ok(())
}

#[test]
fn three_thousand_keys_that_are_met_twice(rt: HostRuntime) -> Result<(), Fail> {
    let fields = row(rt.alloc(), 3000)?;
    let mut text = String::from_str(rt.alloc(), "{u")?;
    text.push_str(fields.as_str())?;
    text.push_str(" u")?;
    text.push_str(fields.as_str())?;
    text.push_str("}")?;
    assert!(rt; !is_too_large(rt.alloc(), text.as_str())?);
    Ok(())
}

/// Puts a fragment of three fields, each of which spreads the fragment before this one.
fn put_fan(alloc: Global, number: u32, text: &mut String) -> Result<(), Fail> {
    text.push_str("fragment F")?;
    put_number(alloc, number, text)?;
    text.push_str(" on posts{")?;
    for alias in ["a", "b", "c"] {
        text.push_str(alias)?;
        text.push_str(": posts{")?;
        put_spread(alloc, number, text)?;
        text.push_str("}")?;
    }
    text.push_str("}")?;
    Ok(())
}

/// Eight fragments are a short text of nine levels, and some sixteen thousand fields.
#[test]
fn fragments_that_fan_out(rt: HostRuntime) -> Result<(), Fail> {
    let mut text = String::from_str(rt.alloc(), "subscription { user { ...F7 } }")?;
    for number in 0..8 {
        put_fan(rt.alloc(), number, &mut text)?;
    }
    assert!(rt; is_too_large(rt.alloc(), text.as_str())?);
    Ok(())
}
