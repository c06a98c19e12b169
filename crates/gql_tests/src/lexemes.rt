use gql_lex::{tokens, unescaped};
use request_model::{Token, TokenKind};
use std::alloc::Global;
use std::test::Fail;

/// How many lexemes a text has, and the place of its first bad one.
fn run_of(alloc: Global, text: &str) -> Result<(usize, Option<usize>), Fail> {
    match tokens(alloc, text) {
        Ok(run) => Ok((run.items().len(), run.bad_at())),
        Err(_) => Err(Fail::from("no memory")),
    }
}

#[test]
fn lexemes_and_the_first_bad_one(rt: HostRuntime) -> Result<(), Fail> {
    let cases = [
        ("", 0, None),
        (" \t\n\r,\u{feff}# all of it !?\r", 0, None),
        ("{ a } # b", 3, None),
        ("a...b", 3, None),
        ("a..b", 1, Some(1)),
        ("-0,10", 2, None),
        ("a 01", 1, Some(2)),
        ("1x", 0, Some(0)),
        ("1.5", 0, Some(0)),
        ("- 1", 0, Some(0)),
        ("\"\" \"a\tb\\\"\\u00e9\"", 2, None),
        ("\"\"\"a\"\"\"", 0, Some(0)),
        ("a \"b\nc\"", 1, Some(2)),
        ("a \"b", 1, Some(2)),
        ("\"\\ud83d\\ude00\"", 1, None),
        ("\"\\ud83d\"", 0, Some(0)),
        ("\"\\ude00\\ud83d\"", 0, Some(0)),
        ("\"\\x\"", 0, Some(0)),
        ("a ? b", 1, Some(2)),
        ("!$&():=@[]{|}", 13, None),
    ];
    for (text, count, bad) in cases {
        assert_eq!(rt; run_of(rt.alloc(), text)?, (count, bad));
    }
    Ok(())
}

#[test]
fn places_and_kinds(rt: HostRuntime) -> Result<(), Fail> {
    let Ok(run) = tokens(rt.alloc(), "{ a12...-3") else {
        return Err(Fail::from("no memory"));
    };
    let kinds = [
        (TokenKind::Punct(b'{'), 0, 1),
        (TokenKind::Name, 2, 5),
        (TokenKind::Spread, 5, 8),
        (TokenKind::Int, 8, 10),
    ];
    assert_eq!(rt; run.items().len(), kinds.len());
    for (token, (kind, start, end)) in run.items().iter().zip(kinds) {
        assert_eq!(rt; *token, Token { kind, start, end });
    }
    Ok(())
}

#[test]
fn escapes_are_read(rt: HostRuntime) -> Result<(), Fail> {
    let cases = [
        ("", ""),
        ("plain \u{e9}\u{1f600}", "plain \u{e9}\u{1f600}"),
        ("\\\"\\\\\\/\\b\\f\\n\\r\\t", "\"\\/\u{8}\u{c}\n\r\t"),
        ("a\\u00e9b\\u20AC", "a\u{e9}b\u{20ac}"),
        ("\\ud83d\\ude00!", "\u{1f600}!"),
    ];
    for (written, text) in cases {
        let Ok(read) = unescaped(rt.alloc(), written) else {
            return Err(Fail::from("no memory"));
        };
        assert_eq!(rt; read.as_str(), text);
    }
    Ok(())
}
