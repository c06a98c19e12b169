ghost use Rattle.std.specs.Prelude.{◌≡◌, Some, option_map};
ghost use Rattle.serde_json.specs.Find.{as_str, get_member};
ghost use Rattle.serde_json.specs.View.{view, members_view};
ghost use Rattle.data_model.specs.JsonParts.{required};
ghost use Rattle.wire_model.specs.ClientMessages.{absent_or, an_object, optional};
ghost use Rattle.ws_message.specs.Forms.{KeepsOthers};

use scalar_val::Str;
use serde_json::{Map, Value};

/// Takes the value of a key out of an object.
pub(crate) fn take(map: &mut Map<String, Value>, name: &str) -> Option<Value>
    ensures value { option_map view result ≡ get_member name.now (members_view map.old.entries) }
    ensures others { KeepsOthers name.now (members_view map.old.entries) (members_view map.new.entries) }
{
    map.remove(name)
}

fn text_of(value: Value) -> Option<Str>
    ensures { result ≡ as_str (view value) }
{
    match value {
        Value::String(text) => Some(Str::from_string(text)),
        _ => None,
    }
}

/// Takes the text of a required key out of an object. `None`: there is none.
pub(crate) fn take_text(map: &mut Map<String, Value>, name: &str) -> Option<Str>
    ensures value { result ≡ required as_str name.now (members_view map.old.entries) }
    ensures others { KeepsOthers name.now (members_view map.old.entries) (members_view map.new.entries) }
{
    match take(map, name) {
        Some(value) => text_of(value),
        None => None,
    }
}

fn optional_text_of(value: Value) -> Option<Option<Str>>
    ensures { result ≡ absent_or as_str (Some (view value)) }
{
    match value {
        Value::Null => Some(None),
        Value::String(text) => Some(Some(Str::from_string(text))),
        _ => None,
    }
}

/// Takes the text of an optional key out of an object: nothing where the key is absent or null. `None`: its value has
/// another form.
pub(crate) fn take_optional_text(map: &mut Map<String, Value>, name: &str) -> Option<Option<Str>>
    ensures value { result ≡ optional as_str name.now (members_view map.old.entries) }
    ensures others { KeepsOthers name.now (members_view map.old.entries) (members_view map.new.entries) }
{
    match take(map, name) {
        Some(value) => optional_text_of(value),
        None => Some(None),
    }
}

fn optional_object_of(value: Value) -> Option<Option<Value>>
    ensures { option_map (option_map view) result ≡ absent_or an_object (Some (view value)) }
{
    match value {
        Value::Null => Some(None),
        Value::Object(map) => Some(Some(Value::Object(map))),
        _ => None,
    }
}

/// Takes the object of an optional key out of an object: nothing where the key is absent or null. `None`: its value has
/// another form.
pub(crate) fn take_optional_object(
    map: &mut Map<String, Value>,
    name: &str,
) -> Option<Option<Value>>
    ensures value { option_map (option_map view) result ≡ optional an_object name.now (members_view map.old.entries) }
    ensures others { KeepsOthers name.now (members_view map.old.entries) (members_view map.new.entries) }
{
    match take(map, name) {
        Some(value) => optional_object_of(value),
        None => Some(None),
    }
}
