use crate::{CloseReason, close_exists};
use std::alloc::{AllocError, Global};
use std::test::Fail;

/// Whether a reason, and its copy, have this code and this text.
fn closes_with(reason: &CloseReason, code: u16, text: &[u8]) -> bool {
    let copy = reason.copy();
    let same = reason.code() == code && reason.text() == text;
    same && copy.code() == code && copy.text() == text
}

#[test]
fn reasons_of_closes(rt: HostRuntime) -> Result<(), Fail> {
    let cases = [
        (CloseReason::Invalid, 4400, "Invalid message"),
        (CloseReason::Unauthorized, 4401, "Unauthorized"),
        (CloseReason::Forbidden, 4403, "Forbidden"),
        (
            CloseReason::InitTimeout,
            4408,
            "Connection initialisation timeout",
        ),
        (
            close_exists("a é"),
            4409,
            "Subscriber for a é already exists",
        ),
        (close_exists(""), 4409, "Subscriber for  already exists"),
        (
            CloseReason::TooManyInits,
            4429,
            "Too many initialisation requests",
        ),
    ];
    for (reason, code, text) in &cases {
        assert!(rt; closes_with(reason, *code, text.as_bytes()));
    }
    Ok(())
}

/// `len` letters, and behind them another text.
fn letters(alloc: Global, len: usize, end: &str) -> Result<String, AllocError> {
    let mut text = String::new(alloc);
    for _ in 0..len {
        text.push_str("x")?;
    }
    text.push_str(end)?;
    Ok(text)
}

/// The text of the close for an id is that of the letters that are kept, behind `Subscriber for `.
fn keeps(alloc: Global, id: &str, len: usize, end: &str) -> Result<bool, AllocError> {
    let mut expected = String::from_str(alloc, "Subscriber for ")?;
    expected.push_str(letters(alloc, len, end)?.as_str())?;
    Ok(close_exists(id).text() == expected.as_bytes())
}

#[test]
fn long_reasons_are_cut(rt: HostRuntime) -> Result<(), Fail> {
    let alloc = rt.alloc();
    let cases = [
        (93, "", 93, " already exists"),
        (94, "", 94, " already exist"),
        (200, "", 108, ""),
        (106, "é", 106, "é"),
        (107, "éééé", 107, ""),
        (106, "\u{1f600}é", 106, ""),
        (104, "\u{1f600}", 104, "\u{1f600}"),
        (91, "é", 91, "é already exists"),
    ];
    for (len, end, kept, kept_end) in cases {
        let id = letters(alloc, len, end)?;
        assert!(rt; keeps(alloc, id.as_str(), kept, kept_end)?);
    }
    let mut long = letters(alloc, 107, "\u{1f600}")?;
    long.push_str(letters(alloc, 89, "")?.as_str())?;
    assert_eq!(rt; long.len(), 200);
    assert!(rt; keeps(alloc, long.as_str(), 107, "")?);
    Ok(())
}

fn is_send_and_sync<T: Send + Sync + Drop>(_value: T) {}

#[test]
fn may_be_shared_by_threads() {
    is_send_and_sync(close_exists("a"));
}
