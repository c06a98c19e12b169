ghost use Rattle.std.specs.Prelude.{◌≡◌, ◌++◌, OnOk, ◌<◌};
ghost use Rattle.std.specs.Char.{digit_char};
ghost use Rattle.json.specs.Print.{escape, escape_byte, quoted};

use crate::parts::append;
use scalar_val::NoMemory;

/// Appends a text as a JSON string as `serde_json` writes it: in quotes, with the short escapes of RFC 8259 where there
/// is one and `\u00` and two lower-case hexadecimal digits for any other byte below 32.
pub(crate) fn write_quoted(out: &mut Vec<u8>, text: &[u8]) -> Result<(), NoMemory>
    ensures { OnOk result (out.new.items ≡ out.old.items ++ quoted text.now) }
{
    append(out, b"\"")?;
    write_escaped(out, text)?;
    append(out, b"\"")
}

fn write_escaped(out: &mut Vec<u8>, text: &[u8]) -> Result<(), NoMemory>
    ensures { OnOk result (out.new.items ≡ out.old.items ++ escape text.now) }
{
    for byte in text {
        write_byte(out, *byte)?;
    }
    Ok(())
}

#[tactic(auto, unfolding(json::specs::Print::escape_byte))]
fn write_byte(out: &mut Vec<u8>, byte: u8) -> Result<(), NoMemory>
    ensures { OnOk result (out.new.items ≡ out.old.items ++ escape_byte byte) }
{
    match byte {
        b'"' => append(out, b"\\\""),
        b'\\' => append(out, b"\\\\"),
        8 => append(out, b"\\b"),
        12 => append(out, b"\\f"),
        b'\n' => append(out, b"\\n"),
        b'\r' => append(out, b"\\r"),
        b'\t' => append(out, b"\\t"),
        0..=31 => append(
            out,
            &[b'\\', b'u', b'0', b'0', digit(byte / 16), digit(byte % 16)],
        ),
        _ => append(out, &[byte]),
    }
}

/// A hexadecimal digit, in lower case.
fn digit(number: u8) -> u8
    requires { number < 16 }
    ensures { result ≡ digit_char number }
{
    if number < 10 {
        b'0' + number
    } else {
        b'a' + (number - 10)
    }
}
