ghost use Rattle.std.specs.Prelude.{◌≡◌, ◌++◌, OnOk, decimal};
ghost use Rattle.wire_model.specs.Generated.{ended};

use itoa::Buffer;
use scalar_val::NoMemory;

pub(crate) fn append(out: &mut Vec<u8>, text: &[u8]) -> Result<(), NoMemory>
    ensures { OnOk result (out.new.items ≡ out.old.items ++ text.now) }
{
    out.extend_from_slice(text)?;
    Ok(())
}

/// A number in decimal.
pub(crate) fn append_number(out: &mut Vec<u8>, number: u32) -> Result<(), NoMemory>
    ensures { OnOk result (out.new.items ≡ out.old.items ++ decimal number) }
{
    append(out, Buffer::new().format(number).as_bytes())
}

/// How many there are, in decimal.
pub(crate) fn append_size(out: &mut Vec<u8>, count: usize) -> Result<(), NoMemory>
    ensures { OnOk result (out.new.items ≡ out.old.items ++ decimal count) }
{
    append(out, Buffer::new().format(count).as_bytes())
}

/// A line and its line feed.
pub(crate) fn append_line(out: &mut Vec<u8>, line: &[u8]) -> Result<(), NoMemory>
    ensures { OnOk result (out.new.items ≡ out.old.items ++ ended line.now) }
{
    append(out, line)?;
    append(out, b"\n")
}
