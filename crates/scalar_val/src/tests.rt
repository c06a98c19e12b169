use crate::{
    Bytes, Kind, List, NoMemory, ReadFault, Str, Val, cmp, copy_val, fit_scalar, read_text,
    write_json,
};
use std::alloc::Global;
use std::cmp::Ordering;

fn is_send_and_sync<T: Send + Sync + Drop>(_value: T) {}

#[test]
fn values_and_lists_of_them_may_be_shared_with_other_threads(
    rt: HostRuntime,
) -> Result<(), NoMemory> {
    let alloc = rt.alloc();
    is_send_and_sync(Str::of(alloc, "a")?);
    is_send_and_sync(Bytes::of(Vec::new(alloc)));
    is_send_and_sync(List::<Val>::new(alloc));
    Ok(())
}

/// Appends the JSON text of what was read, or `bad`.
fn show(alloc: Global, read: Result<Val, ReadFault>, out: &mut Vec<u8>) -> Result<(), NoMemory> {
    match read {
        Ok(val) => write_json(&copy_val(alloc, &val)?, out)?,
        Err(ReadFault::BadValue) => out.extend_from_slice(b"bad")?,
        Err(ReadFault::NoMemory) => return Err(NoMemory),
    }
    out.push(b' ')?;
    Ok(())
}

/// What the texts are in a kind, each with a space behind it.
fn spelled(alloc: Global, kind: Kind, texts: &[&str]) -> Result<Vec<u8>, NoMemory> {
    let mut out = Vec::new(alloc);
    for text in texts {
        show(alloc, read_text(alloc, kind, text), &mut out)?;
    }
    Ok(out)
}

#[test]
fn booleans(rt: HostRuntime) -> Result<(), NoMemory> {
    let out = spelled(rt.alloc(), Kind::Bool, &["true", "false", "True", ""])?;
    assert_eq!(rt; out.as_slice(), b"true false bad bad ".as_slice());
    Ok(())
}

#[test]
fn integers_of_32_bits(rt: HostRuntime) -> Result<(), NoMemory> {
    let texts = [
        "-2147483648",
        "2147483647",
        "2147483648",
        "007",
        "+7",
        "-",
        "1.0",
        "-0",
    ];
    let out = spelled(rt.alloc(), Kind::Int, &texts)?;
    let want = b"-2147483648 2147483647 bad 7 bad bad bad 0 ";
    assert_eq!(rt; out.as_slice(), want.as_slice());
    Ok(())
}

#[test]
fn integers_of_64_bits(rt: HostRuntime) -> Result<(), NoMemory> {
    let texts = [
        "9223372036854775807",
        "-9223372036854775808",
        "9223372036854775808",
        "0000000000000000001",
        "00000000000000000001",
    ];
    let out = spelled(rt.alloc(), Kind::Big, &texts)?;
    let want = b"9223372036854775807 -9223372036854775808 bad 1 bad ";
    assert_eq!(rt; out.as_slice(), want.as_slice());
    Ok(())
}

#[test]
fn texts_are_escaped(rt: HostRuntime) -> Result<(), NoMemory> {
    let out = spelled(rt.alloc(), Kind::Text, &["\"\u{1}\n\\é"])?;
    assert_eq!(rt; out.as_slice(), "\"\\\"\\u0001\\n\\\\é\" ".as_bytes());
    Ok(())
}

// The identifier is the example of RFC 4122.
#[test]
fn identifiers(rt: HostRuntime) -> Result<(), NoMemory> {
    let texts = [
        "F81D4FAE7DEC11D0A76500A0C91E6BF6",
        "{f81d4fae-7dec-11d0-a765-00a0c91e6bf6}",
        "URN:UUID:f81d4fae-7dec-11d0-a765-00a0c91e6bf6",
        "{f81d4fae7dec11d0a76500a0c91e6bf6}",
    ];
    let out = spelled(rt.alloc(), Kind::Uuid, &texts)?;
    let want =
        b"\"f81d4fae-7dec-11d0-a765-00a0c91e6bf6\" \"f81d4fae-7dec-11d0-a765-00a0c91e6bf6\" \"f81d4fae-7dec-11d0-a765-00a0c91e6bf6\" bad ";
    assert_eq!(rt; out.as_slice(), want.as_slice());
    Ok(())
}

#[test]
fn scalars_of_json_fit(rt: HostRuntime) -> Result<(), NoMemory> {
    let alloc = rt.alloc();
    let mut out = Vec::new(alloc);
    show(
        alloc,
        fit_scalar(alloc, Kind::Int, &Val::Big(2147483648)),
        &mut out,
    )?;
    show(
        alloc,
        fit_scalar(alloc, Kind::Int, &Val::Big(-2147483648)),
        &mut out,
    )?;
    let text = Val::Text(Str::of(alloc, "-5")?);
    show(alloc, fit_scalar(alloc, Kind::Big, &text), &mut out)?;
    show(alloc, fit_scalar(alloc, Kind::Int, &text), &mut out)?;
    assert_eq!(rt; out.as_slice(), b"bad -2147483648 -5 bad ".as_slice());
    Ok(())
}

#[test]
fn kinds_are_ordered(rt: HostRuntime) -> Result<(), NoMemory> {
    let (null, no, least) = (Val::Null, Val::Bool(false), Val::Int(-7));
    let text = Val::Text(Str::of(rt.alloc(), "")?);
    assert!(rt; cmp(&null, &no) == Ordering::Less);
    assert!(rt; cmp(&text, &least) == Ordering::Greater);
    Ok(())
}
