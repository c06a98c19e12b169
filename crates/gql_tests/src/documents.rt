use gql_ast::{ParseFault, parse};
use gql_lex::tokens;
use request_model::{Definition, Document, GValue, Selection};
use std::alloc::Global;
use std::test::Fail;

/// The place of the text's fault, or None where it is a document.
fn fault(alloc: Global, text: &str) -> Result<Option<usize>, Fail> {
    let Ok(run) = tokens(alloc, text) else {
        return Err(Fail::from("no memory"));
    };
    match parse(alloc, text, &run) {
        Ok(_) => Ok(None),
        Err(ParseFault::Syntax { at }) => Ok(Some(at)),
        Err(ParseFault::NoMemory) => Err(Fail::from("no memory")),
    }
}

/// The first case whose fault isn't at the given place.
fn wrong_case(alloc: Global, cases: &[(&str, Option<usize>)]) -> Result<Option<usize>, Fail> {
    for (index, (text, place)) in cases.iter().enumerate() {
        if fault(alloc, text)? != *place {
            return Ok(Some(index));
        }
    }
    Ok(None)
}

#[test]
fn places_of_faults(rt: HostRuntime) -> Result<(), Fail> {
    let cases = [
        ("subscription { user { id } ", Some(27)),
        ("{ user { id } }", None),
        ("{ }", Some(2)),
        ("{ a() }", Some(4)),
        ("{ a(x: 01) }", Some(7)),
        ("{ a : : 01 }", Some(6)),
        ("{ a ... on }", Some(11)),
        ("query Q($a: T = $b) { a }", Some(16)),
        ("query ($a: [Int = 3) {a}", Some(16)),
        ("fragment on on T { a }", Some(9)),
        ("{a(s:\"\\ud83d\")}", Some(5)),
        ("", Some(0)),
        ("  # c", Some(5)),
    ];
    assert_eq!(rt; wrong_case(rt.alloc(), &cases)?, None);
    Ok(())
}

/// The place of the fault of the prefix of so many bytes, where `documents` are the prefixes that are documents and
/// `faults` those that are at fault before their end: from the first to the second number of bytes, at the third.
fn expected(len: usize, documents: &[usize], faults: &[(usize, usize, usize)]) -> Option<usize> {
    if documents.contains(&len) {
        return None;
    }
    for (first, last, place) in faults {
        if *first <= len && len <= *last {
            return Some(*place);
        }
    }
    Some(len)
}

/// The first prefix of the text whose fault isn't where it is expected.
fn wrong_prefix(
    alloc: Global,
    text: &str,
    documents: &[usize],
    faults: &[(usize, usize, usize)],
) -> Result<Option<usize>, Fail> {
    for end in 0..text.len() {
        let Some(prefix) = text.get(..end) else {
            continue;
        };
        if fault(alloc, prefix)? != expected(end, documents, faults) {
            return Ok(Some(end));
        }
    }
    Ok(None)
}

#[test]
fn every_prefix_of_a_text_with_the_whole_grammar(rt: HostRuntime) -> Result<(), Fail> {
    let mut text = String::from_str(
        rt.alloc(),
        "query Q($a:[I!]!=[1,-2]@d(x:\"s\"),$b:T)@e{k:f(v:{o:$a,p:null,q:[true false E]})",
    )?;
    text.push_str("@skip(if:true){x}...F@g...on T@h{y}...{z}}#c\n")?;
    text.push_str("fragment F on T@i(j:\"\\ud83d\\ude00\\n\"){w}mutation{m}subscription S{s}{q}")?;
    let documents = [120, 121, 122, 123, 163, 174, 191, 194];
    let faults = [
        (1, 4, 0),
        (21, 21, 20),
        (29, 30, 28),
        (96, 97, 95),
        (102, 103, 101),
        (114, 115, 113),
        (124, 130, 123),
        (135, 135, 134),
        (144, 158, 143),
        (164, 170, 163),
        (175, 185, 174),
    ];
    assert_eq!(rt; text.len(), 194);
    assert_eq!(rt;
        wrong_prefix(rt.alloc(), text.as_str(), &documents, &faults)?,
        None
    );
    assert_eq!(rt; fault(rt.alloc(), text.as_str())?, None);
    Ok(())
}

/// A text, and then another so many times.
fn repeated(alloc: Global, front: &str, piece: &str, times: u32) -> Result<String, Fail> {
    let mut text = String::from_str(alloc, front)?;
    for _ in 0..times {
        text.push_str(piece)?;
    }
    Ok(text)
}

fn wrong_repetition(
    alloc: Global,
    cases: &[(&str, &str, u32, Option<usize>)],
) -> Result<Option<usize>, Fail> {
    for (index, (front, piece, times, place)) in cases.iter().enumerate() {
        let text = repeated(alloc, front, piece, *times)?;
        if fault(alloc, text.as_str())? != *place {
            return Ok(Some(index));
        }
    }
    Ok(None)
}

#[test]
fn limits(rt: HostRuntime) -> Result<(), Fail> {
    let cases = [
        ("subscription { user { id } }", " ", 65509, Some(65536)),
        ("{a}", " ", 65533, None),
        ("?", " ", 65536, Some(65536)),
        ("subscription { user(where: ", "[", 62, Some(89)),
        ("subscription { user(where: ", "[", 63, Some(89)),
        ("{a(b:", "[", 65530, Some(67)),
        ("", "{a", 32768, Some(128)),
        ("query($a:", "[", 65000, Some(72)),
        ("{", "a ", 32000, Some(64001)),
    ];
    assert_eq!(rt; wrong_repetition(rt.alloc(), &cases)?, None);
    Ok(())
}

/// The string that is the first argument of the first field of the first definition.
fn first_string(document: &Document) -> Option<&str> {
    let Some(Definition::Operation { select, .. }) = document.definitions.get(0) else {
        return None;
    };
    let Some(Selection::Field { args, .. }) = select.get(0) else {
        return None;
    };
    match args.get(0) {
        Some(pair) => match &pair.value {
            GValue::Text(text) => Some(text.as_str()),
            _ => None,
        },
        None => None,
    }
}

#[test]
fn a_string_stands_in_its_tree_as_it_is_read(rt: HostRuntime) -> Result<(), Fail> {
    let text = "{ a(s: \"\\u0041\\n\") }";
    let Ok(run) = tokens(rt.alloc(), text) else {
        return Err(Fail::from("no memory"));
    };
    let Ok(document) = parse(rt.alloc(), text, &run) else {
        return Err(Fail::from("no document"));
    };
    assert_eq!(rt; first_string(&document), Some("A\n"));
    Ok(())
}
