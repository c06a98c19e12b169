ghost use Rattle.std.specs.Prelude.{◌≡◌, ◌<◌, ◌≤◌, ℕ, IfSome, Some};
ghost use Rattle.std.specs.Fmt.{decimal};

use itoa::Buffer;

/// The number from 1 to the last one that a text writes in decimal without leading zeros.
pub fn read_number(text: &str, last: u16) -> Option<u16>
    ensures every { (n : ℕ) → 1 ≤ n → n ≤ last → text.now ≡ decimal n → result ≡ Some n }
    ensures in_range { IfSome result (λ n. (1 ≤ n) × (n ≤ last)) }
{
    match read_decimal(text) {
        Some(number) => {
            if 1 <= number && number <= last {
                Some(number)
            } else {
                None
            }
        }
        None => None,
    }
}

/// The number that a text writes in decimal without leading zeros.
#[tactic(auto, using(crate::proofs::Numbers::parsed))]
fn read_decimal(text: &str) -> Option<u16>
    ensures { (n : ℕ) → n < 65536 → text.now ≡ decimal n → result ≡ Some n }
{
    match text.parse::<u16>() {
        Ok(number) => {
            if text == Buffer::new().format(number) {
                Some(number)
            } else {
                None
            }
        }
        Err(_) => None,
    }
}
