use gql_ast::parse;
use gql_lex::tokens;
use gql_scope::{
    Fragments, Operation, Scope, chosen, first_refusal, fragments_of, operations_of, repeats,
};
use request_model::{Document, FlatFault, Selection};
use scalar_val::{NoMemory, Str};
use serde_json::Value;
use std::alloc::Global;
use std::test::Fail;

fn document_of(alloc: Global, text: &str) -> Result<Document, Fail> {
    let Ok(run) = tokens(alloc, text) else {
        return Err(Fail::from("no memory"));
    };
    let Ok(document) = parse(alloc, text, &run) else {
        return Err(Fail::from("no document"));
    };
    Ok(document)
}

fn value_of(alloc: Global, text: &str) -> Result<Value, Fail> {
    let Ok(value) = Value::from_str(alloc, text) else {
        return Err(Fail::from("no value"));
    };
    Ok(value)
}

fn strs(alloc: Global, words: &[&str]) -> Result<Vec<Str>, NoMemory> {
    let mut strs = Vec::new(alloc);
    for word in words {
        strs.push(Str::of(alloc, word)?)?;
    }
    Ok(strs)
}

fn references(alloc: Global, strs: &[Str]) -> Result<Vec<&Str>, NoMemory> {
    let mut references = Vec::new(alloc);
    for text in strs {
        references.push(text)?;
    }
    Ok(references)
}

const WORDS: [&str; 6] = ["b", "a", "b", "", "c", "a"];

fn repeat(alloc: Global, words: &[&str]) -> Result<bool, NoMemory> {
    let strs = strs(alloc, words)?;
    let references = references(alloc, strs.as_slice())?;
    repeats(alloc, references.as_slice())
}

#[test]
fn names_that_repeat(rt: HostRuntime) -> Result<(), Fail> {
    assert!(rt; repeat(rt.alloc(), &WORDS)?);
    assert!(rt; !repeat(rt.alloc(), &["b", "a", "", "ab"])?);
    Ok(())
}

fn name_of(fault: FlatFault) -> &'static str {
    match fault {
        FlatFault::NoOperation => "NoOperation",
        FlatFault::AmbiguousOperation => "AmbiguousOperation",
        FlatFault::UnknownFragment => "UnknownFragment",
        FlatFault::FragmentCycle => "FragmentCycle",
        FlatFault::NoDirective => "NoDirective",
        FlatFault::NotBoolean => "NotBoolean",
        _ => "another",
    }
}

fn refusal(
    alloc: Global,
    document: &Document,
    operation: &Operation<'_>,
    variables: &Value,
) -> Result<&'static str, Fail> {
    let fragments = Fragments::of(alloc, fragments_of(alloc, document)?)?;
    let scope = Scope::of(alloc, fragments, operation.vars, variables)?;
    match first_refusal(alloc, &scope, operation)? {
        Some(fault) => Ok(name_of(fault)),
        None => Ok("none"),
    }
}

/// What refuses the only operation of a document.
fn refusal_of(alloc: Global, text: &str, variables: &str) -> Result<&'static str, Fail> {
    let document = document_of(alloc, text)?;
    let variables = value_of(alloc, variables)?;
    let Ok(operations) = operations_of(alloc, &document) else {
        return Err(Fail::from("no memory"));
    };
    match chosen(operations.as_slice(), None) {
        Ok(operation) => refusal(alloc, &document, operation, &variables),
        Err(fault) => Ok(name_of(fault)),
    }
}

/// The first case with another answer: the document, the variables, and what refuses its operation.
fn wrong_refusal(alloc: Global, cases: &[(&str, &str, &str)]) -> Result<Option<usize>, Fail> {
    for (index, (text, variables, expected)) in cases.iter().enumerate() {
        if refusal_of(alloc, text, variables)? != *expected {
            return Ok(Some(index));
        }
    }
    Ok(None)
}

#[test]
fn what_refuses_an_operation(rt: HostRuntime) -> Result<(), Fail> {
    let cases = [
        ("fragment F on T {a}", "null", "NoOperation"),
        ("{a} {a}", "null", "AmbiguousOperation"),
        ("{ a { ... on T { ...F } } }", "null", "UnknownFragment"),
        (
            "{ ...F } fragment F on T { ...G } fragment G on T { a @x ...F } fragment H on T { ...I }",
            "null",
            "FragmentCycle",
        ),
        (
            "{ a } fragment F on T { ...F } fragment G on T { ...H a @x }",
            "null",
            "none",
        ),
        (
            "{ ...F @skip(if: true) } fragment F on T { a @skip(if: 1) @x }",
            "null",
            "NoDirective",
        ),
        ("query ($a: B @x) { a }", "null", "NoDirective"),
        ("query @skip(if: true) { a }", "null", "NoDirective"),
        ("{ a @include(if: true, if: true) }", "null", "NotBoolean"),
        ("query ($a: B) { a @skip(if: $a) }", "null", "NotBoolean"),
        (
            "query ($a: B = true, $b: B) { a @skip(if: $a) b @include(if: $b) }",
            "{\"b\":false}",
            "none",
        ),
    ];
    assert_eq!(rt; wrong_refusal(rt.alloc(), &cases)?, None);
    Ok(())
}

const DROPPING: &str =
    "query ($t: B = true, $g: B = true, $n: B = true, $d: B = false, $d: B = true) {
  a @skip(if: true)
  a @skip(if: false) @include(if: false)
  a @include(if: $t)
  a @skip(if: $g) @include(if: true)
  a @include(if: $d)
  a @skip(if: $n) @skip(if: $o)
  ...F @include(if: $g)
  ... @skip(if: $t) {a}
}";

const DROPPED: [bool; 8] = [true, true, false, false, true, false, true, true];

fn drops(scope: &Scope<'_>, selection: &Selection) -> bool {
    match selection {
        Selection::Field { directives, .. } => scope.is_dropped(directives.as_slice()),
        Selection::Spread { directives, .. } => scope.is_dropped(directives.as_slice()),
        Selection::Inline { directives, .. } => scope.is_dropped(directives.as_slice()),
    }
}

/// The first selection that is dropped and should not be, or the other way round.
fn wrongly_dropped(scope: &Scope<'_>, set: &[Selection]) -> Option<usize> {
    for (index, selection) in set.iter().enumerate() {
        if DROPPED.get(index).copied() != Some(drops(scope, selection)) {
            return Some(index);
        }
    }
    None
}

#[test]
fn selections_that_are_dropped(rt: HostRuntime) -> Result<(), Fail> {
    let alloc = rt.alloc();
    let document = document_of(alloc, DROPPING)?;
    let variables = value_of(alloc, "{\"g\":false,\"n\":null,\"o\":true}")?;
    let Ok(operations) = operations_of(alloc, &document) else {
        return Err(Fail::from("no memory"));
    };
    let Ok(operation) = chosen(operations.as_slice(), None) else {
        return Err(Fail::from("no operation"));
    };
    let scope = Scope::of(
        alloc,
        Fragments::of(alloc, Vec::new(alloc))?,
        operation.vars,
        &variables,
    )?;
    assert_eq!(rt; scope.vars().len(), 5);
    assert_eq!(rt; operation.select.len(), DROPPED.len());
    assert_eq!(rt; wrongly_dropped(&scope, operation.select), None);
    Ok(())
}

#[test]
fn fragments_by_their_names(rt: HostRuntime) -> Result<(), Fail> {
    let alloc = rt.alloc();
    let text = "fragment A on T {a} query B {b} fragment B on T {a b} fragment A on T {a b c}";
    let document = document_of(alloc, text)?;
    let fragments = Fragments::of(alloc, fragments_of(alloc, &document)?)?;
    assert_eq!(rt; fragments.count(), 3);
    assert_eq!(rt; fragments.as_slice().len(), 3);
    let cases = [("A", 0, Some(1)), ("B", 1, Some(2)), ("C", 3, None)];
    for (name, place, fields) in &cases {
        assert_eq!(rt; fragments.place_or_count(name), *place);
        assert_eq!(rt;
            fragments.named(name).map(|fragment| fragment.select.len()),
            *fields
        );
    }
    Ok(())
}

#[test]
fn the_wanted_operation(rt: HostRuntime) -> Result<(), Fail> {
    let alloc = rt.alloc();
    let document = document_of(alloc, "query A {a} mutation B {a b} {a b c} query B {a}")?;
    let operations = operations_of(alloc, &document)?;
    let wanted = Str::of(alloc, "B")?;
    let Ok(operation) = chosen(operations.as_slice(), Some(&wanted)) else {
        return Err(Fail::from("no operation"));
    };
    assert_eq!(rt; operation.select.len(), 2);
    Ok(())
}
