ghost use Rattle.std.specs.Prelude.{◌≡◌, Some, find};
ghost use Rattle.std.specs.Option.{option_copied};
ghost use Rattle.std.specs.Str.{bytes_eq};
ghost use Rattle.query_model.specs.Names.{argument, pair_name, pairs_in, items_in, enum_in};
ghost use Rattle.query_model.specs.Names.{pairs_of_first, cursor_pairs, initial_pair, initial_column, descends};

use request_model::{GPair, GValue};
use role_schema::RoleView;

fn pair_named<'a>(name: &str, pairs: &'a [GPair]) -> Option<&'a GPair>
    ensures { option_copied result ≡ find (λ p. bytes_eq name.now (pair_name p)) pairs.now }
{
    for pair in pairs {
        if name == pair.name.as_str() {
            return Some(pair);
        }
    }
    None
}

/// The value of the argument, or of the key of an object, of a name: the first where there are several.
pub fn argument<'a>(name: &str, args: &'a [GPair]) -> Option<&'a GValue>
    ensures { option_copied result ≡ argument name.now args.now }
{
    match pair_named(name, args) {
        Some(pair) => Some(&pair.value),
        None => None,
    }
}

/// The pairs of an object, and none of another value.
pub(crate) fn pairs_in(value: &GValue) -> &[GPair]
    ensures { result.now ≡ pairs_in value.now }
{
    match value {
        GValue::Object(pairs) => pairs.as_slice(),
        _ => &[],
    }
}

/// The items of a list, or else the value alone.
pub(crate) fn items_in(value: &GValue) -> &[GValue]
    ensures { result.now ≡ items_in value.now }
{
    match value {
        GValue::Many(items) => items.as_slice(),
        _ => std::slice::from_ref(value),
    }
}

/// The name of the enum that a value is.
pub(crate) fn enum_in(value: &GValue) -> Option<&str>
    ensures { option_copied result ≡ enum_in value.now }
{
    match value {
        GValue::Enum(name) => Some(name.as_str()),
        _ => None,
    }
}

fn pairs_of_first(items: &[GValue]) -> &[GPair]
    ensures { result.now ≡ pairs_of_first (Some items.now) }
{
    match items.first() {
        Some(value) => pairs_in(value),
        None => &[],
    }
}

/// The pairs of a stream's cursor, the argument `cursor`: those of an object, or of the first of a list of objects.
pub fn cursor_pairs(args: &[GPair]) -> &[GPair]
    ensures { result.now ≡ cursor_pairs args.now }
{
    match argument("cursor", args) {
        Some(value) => pairs_of_first(items_in(value)),
        None => &[],
    }
}

/// The pair of a stream's column and its initial value: the first in its cursor's `initial_value`.
pub fn initial_pair(args: &[GPair]) -> Option<&GPair>
    ensures { option_copied result ≡ initial_pair args.now }
{
    match argument("initial_value", cursor_pairs(args)) {
        Some(value) => pairs_in(value).first(),
        None => None,
    }
}

/// The column of a stream on a table, by the first name in its cursor's `initial_value`; 0 where there is none that the
/// role sees.
pub fn initial_column(view: &RoleView<'_>, table: u32, args: &[GPair]) -> u32
    ensures { result ≡ initial_column view.now table args.now }
{
    match initial_pair(args) {
        Some(pair) => view.column(table, pair.name.as_str()).unwrap_or(0),
        None => 0,
    }
}

/// Whether a stream goes down: the `ordering` of its cursor is `DESC`.
pub fn descends(args: &[GPair]) -> bool
    ensures { result ≡ descends args.now }
{
    match argument("ordering", cursor_pairs(args)) {
        Some(value) => match enum_in(value) {
            Some(name) => name == "DESC",
            None => false,
        },
        None => false,
    }
}
