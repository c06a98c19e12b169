ghost use Rattle.std.specs.Prelude.{◌≡◌, option_map, IfOk};
ghost use Rattle.serde_json.specs.Find.{get_member};
ghost use Rattle.serde_json.specs.View.{view, members_view};
ghost use Rattle.data_model.specs.JsonParts.{scalar_of, scalar_or_null};

use scalar_val::{NoMemory, Str, Val};
use serde_json::{Map, Value};
use std::alloc::Global;

/// A JSON scalar: a boolean, an integer within 64 bits, as a bigint, or a string, as a text. `None`: the value is
/// another, as null or `-0`, which is a float.
pub fn read_scalar(alloc: Global, value: &Value) -> Result<Option<Val>, NoMemory>
    ensures { IfOk result (λ o. o ≡ scalar_of (view value.now)) }
{
    match value {
        Value::Bool(truth) => Ok(Some(Val::Bool(*truth))),
        Value::Number(number) => match number.as_i64() {
            Some(number) => Ok(Some(Val::Big(number))),
            None => Ok(None),
        },
        Value::String(text) => Ok(Some(Val::Text(Str::of(alloc, text.as_str())?))),
        _ => Ok(None),
    }
}

/// Null, or a JSON scalar as `read_scalar` reads it.
pub fn read_scalar_or_null(alloc: Global, value: &Value) -> Result<Option<Val>, NoMemory>
    ensures { IfOk result (λ o. o ≡ scalar_or_null (view value.now)) }
{
    match value {
        Value::Null => Ok(Some(Val::Null)),
        _ => read_scalar(alloc, value),
    }
}

/// The value of an object's key, the last pair's where several have it.
pub fn member<'a>(map: &'a Map<String, Value>, key: &str) -> Option<&'a Value>
    ensures { option_map (λ v. view v.now) result ≡ get_member key.now (members_view map.now.entries) }
{
    map.get(key)
}
