ghost use Rattle.std.specs.Prelude.{◌≡◌, ◌^◌, ◌<◌, ◌≤◌};
ghost use Rattle.machine.specs.Lines.{read_number};
ghost use Rattle.script_text.specs.Numbers.{small_number};

use itoa::Buffer;

/// The number of a connection that a text writes in decimal without leading zeros.
pub(crate) fn read_connection(text: &str) -> Option<u32>
    ensures { result ≡ read_number (2 ^ 32) text.now }
{
    u32::try_from(read_number(text, 1 << 32)?).ok()
}

/// The number of a job that a text writes in decimal without leading zeros.
pub(crate) fn read_job(text: &str) -> Option<u64>
    ensures { result ≡ read_number (2 ^ 64) text.now }
{
    read_number(text, 1 << 64)
}

/// The number below a limit that a text writes in decimal without leading zeros. The limit is from 1 to 2^64.
pub fn read_number(text: &str, limit: u128) -> Option<u64>
    requires some { 0 < limit }
    requires fits { limit ≤ 2 ^ 64 }
    ensures { result ≡ read_number limit text.now }
{
    let number = small_number(text.as_bytes(), limit)?;
    if text.as_bytes() == Buffer::new().format(number).as_bytes() {
        Some(number)
    } else {
        None
    }
}

/// The number that digits name, where it is below a limit.
fn small_number(text: &[u8], limit: u128) -> Option<u64>
    requires some { 0 < limit }
    requires fits { limit ≤ 2 ^ 64 }
    ensures { result ≡ small_number limit text.now }
{
    let mut number: u128 = 0;
    for byte in text {
        number = number * 10 + u128::from(byte.saturating_sub(b'0'));
        if number >= limit {
            return None;
        }
    }
    u64::try_from(number).ok()
}
