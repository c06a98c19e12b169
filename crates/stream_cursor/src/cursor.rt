ghost use Rattle.std.specs.Prelude.{◌≡◌};
ghost use Rattle.std.specs.Option.{option_copied};
ghost use Rattle.stream_cursor.specs.Cursors.{cursor_after};

use json_out::Outcome;
use scalar_val::Val;

/// The cursor after an outcome's rows are sent: the cursor value of the last of them, or `None` exactly where there are no
/// rows. It takes no memory.
pub fn advance(outcome: &Outcome) -> Option<&Val>
    ensures { option_copied result ≡ cursor_after outcome.now.rows outcome.now.last }
{
    if outcome.rows == 0 {
        None
    } else {
        Some(&outcome.last)
    }
}
