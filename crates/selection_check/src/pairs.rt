//! Names with their values.

ghost use Rattle.std.specs.Prelude.{◌≡◌, map, is_some};
ghost use Rattle.std.specs.List.{list_any};
ghost use Rattle.std.specs.Str.{bytes_eq};
ghost use Rattle.query_model.specs.Names.{argument, pair_name};

use request_model::GPair;

/// Whether a name stands among the pairs.
pub fn has_name(pairs: &[GPair], name: &str) -> bool
    ensures among { result ≡ list_any (bytes_eq name.now) (map pair_name pairs.now) }
    ensures argument { result ≡ is_some (argument name.now pairs.now) }
{
    for pair in pairs {
        if name == pair.name.as_str() {
            return true;
        }
    }
    false
}
