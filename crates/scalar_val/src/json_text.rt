ghost use Rattle.std.specs.Prelude.{◌≡◌, ◌++◌, ◌∷◌, [], length, take, ◌<◌, OnOk, OnErr};
ghost use Rattle.std.specs.Bool.{OnTrue};
ghost use Rattle.std.specs.Char.{digit_char};
ghost use Rattle.json.specs.Print.{escape, escape_byte, quoted};
ghost use Rattle.scalar_val.specs.ValText.{uuid_text, val_text};

use crate::text::NoMemory;
use crate::val::Val;
use itoa::Buffer;
use uuid::Uuid;

/// Appends a value's JSON text, without a space: `null`, `true`, `false`, a number in decimal, a text as `write_quoted`
/// does, and an identifier as a string in its lower-case hyphenated form. For want of memory nothing is appended.
pub fn write_json(val: &Val, out: &mut Vec<u8>) -> Result<(), NoMemory>
    ensures ok { OnOk result (out.new.items ≡ out.old.items ++ val_text val.now) }
    ensures err { OnErr result (out.new.items ≡ out.old.items) }
{
    match val {
        Val::Null => append(out, b"null"),
        Val::Bool(true) => append(out, b"true"),
        Val::Bool(false) => append(out, b"false"),
        Val::Int(number) => append(out, Buffer::new().format(*number).as_bytes()),
        Val::Big(number) => append(out, Buffer::new().format(*number).as_bytes()),
        Val::Text(text) => write_quoted(text.as_str(), out),
        Val::Uuid(number) => write_uuid(*number, out),
    }
}

fn write_uuid(number: u128, out: &mut Vec<u8>) -> Result<(), NoMemory>
    ensures ok { OnOk result (out.new.items ≡ out.old.items ++ 34 ∷ uuid_text number ++ 34 ∷ []) }
    ensures err { OnErr result (out.new.items ≡ out.old.items) }
{
    let mut buffer = Uuid::encode_buffer();
    let text = Uuid::from_u128(number)
        .hyphenated()
        .encode_lower(&mut buffer);
    write_in_quotes(text.as_bytes(), out)
}

fn write_in_quotes(bytes: &[u8], out: &mut Vec<u8>) -> Result<(), NoMemory>
    ensures ok { OnOk result (out.new.items ≡ out.old.items ++ 34 ∷ bytes.now ++ 34 ∷ []) }
    ensures err { OnErr result (out.new.items ≡ out.old.items) }
{
    let start = out.len();
    let wrote = put_in_quotes(bytes, out);
    if wrote.is_err() {
        out.truncate(start);
    }
    wrote
}

fn put_in_quotes(bytes: &[u8], out: &mut Vec<u8>) -> Result<(), NoMemory>
    ensures ok { OnOk result (out.new.items ≡ out.old.items ++ 34 ∷ bytes.now ++ 34 ∷ []) }
    ensures front { take (length out.old.items) out.new.items ≡ out.old.items }
{
    out.push(b'"')?;
    append(out, bytes)?;
    out.push(b'"')?;
    Ok(())
}

/// Appends a text as a JSON string as `serde_json` writes it: in quotes, with the short escapes of RFC 8259 where there
/// is one and `\u00` and two lower-case hexadecimal digits for any other byte below 32. For want of memory nothing is
/// appended.
pub fn write_quoted(text: &str, out: &mut Vec<u8>) -> Result<(), NoMemory>
    ensures ok { OnOk result (out.new.items ≡ out.old.items ++ quoted text.now) }
    ensures err { OnErr result (out.new.items ≡ out.old.items) }
{
    let start = out.len();
    let wrote = put_quoted(text.as_bytes(), out);
    if wrote.is_err() {
        out.truncate(start);
    }
    wrote
}

fn append(out: &mut Vec<u8>, bytes: &[u8]) -> Result<(), NoMemory>
    ensures ok { OnOk result (out.new.items ≡ out.old.items ++ bytes.now) }
    ensures err { OnErr result (out.new.items ≡ out.old.items) }
{
    out.extend_from_slice(bytes)?;
    Ok(())
}

fn put_quoted(bytes: &[u8], out: &mut Vec<u8>) -> Result<(), NoMemory>
    ensures ok { OnOk result (out.new.items ≡ out.old.items ++ quoted bytes.now) }
    ensures front { take (length out.old.items) out.new.items ≡ out.old.items }
{
    out.push(b'"')?;
    if is_plain(bytes) {
        append(out, bytes)?;
    } else {
        put_escaped(bytes, out)?;
    }
    out.push(b'"')?;
    Ok(())
}

fn put_escaped(bytes: &[u8], out: &mut Vec<u8>) -> Result<(), NoMemory>
    ensures ok { OnOk result (out.new.items ≡ out.old.items ++ escape bytes.now) }
    ensures front { take (length out.old.items) out.new.items ≡ out.old.items }
{
    for byte in bytes {
        put_byte(*byte, out)?;
    }
    Ok(())
}

#[tactic(auto, unfolding(json::specs::Print::escape_byte))]
fn put_byte(byte: u8, out: &mut Vec<u8>) -> Result<(), NoMemory>
    ensures ok { OnOk result (out.new.items ≡ out.old.items ++ escape_byte byte) }
    ensures err { OnErr result (out.new.items ≡ out.old.items) }
{
    match byte {
        b'"' => append(out, b"\\\""),
        b'\\' => append(out, b"\\\\"),
        8 => append(out, b"\\b"),
        12 => append(out, b"\\f"),
        b'\n' => append(out, b"\\n"),
        b'\r' => append(out, b"\\r"),
        b'\t' => append(out, b"\\t"),
        0..=31 => append(
            out,
            &[b'\\', b'u', b'0', b'0', digit(byte / 16), digit(byte % 16)],
        ),
        _ => append(out, &[byte]),
    }
}

/// Whether no byte needs an escape.
fn is_plain(bytes: &[u8]) -> bool
    ensures { OnTrue result (escape bytes.now ≡ bytes.now) }
{
    let mut stops = false;
    for byte in bytes {
        stops = stops | (*byte < 32) | (*byte == b'"') | (*byte == b'\\');
    }
    !stops
}

/// A hexadecimal digit, in lower case.
fn digit(number: u8) -> u8
    requires { number < 16 }
    ensures { result ≡ digit_char number }
{
    if number < 10 {
        b'0' + number
    } else {
        b'a' + (number - 10)
    }
}
