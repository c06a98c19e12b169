ghost use Rattle.std.specs.Prelude.{◌≡◌, OnOk};
ghost use Rattle.std.specs.List.{fold};
ghost use Rattle.serde_json.specs.Data.{string};
ghost use Rattle.serde_json.specs.View.{view, items_view, members_view};
ghost use Rattle.role_model.specs.JsonFilters.{with_text, mentions, mentions_of_items, mentions_of_members};
ghost use Rattle.filter_read.specs.Kept.{StillBegins};

use crate::json_filter::lowered_session_name;
use name_set::NameSet;
use scalar_val::NoMemory;
use serde_json::{Map, Value};
use std::alloc::Global;

#[tactic(auto, using(crate::proofs::Kept::unchanged, crate::proofs::Kept::with_all))]
fn push_mention(alloc: Global, text: &str, names: &mut NameSet) -> Result<(), NoMemory>
    ensures added { OnOk result (names.new ≡ fold with_text names.old (mentions (string text.now))) }
    ensures kept { StillBegins names.old names.new }
{
    match lowered_session_name(alloc, text)? {
        Some(name) => {
            names.insert(alloc, name)?;
            Ok(())
        }
        None => Ok(()),
    }
}

/// Adds the session variables that a JSON value names, in lower case and in the order in which they stand there, each
/// once. Where memory is refused, some of them may have been added; what was there stays at its place.
#[cycle(mentions)]
pub fn push_mentions(alloc: Global, value: &Value, names: &mut NameSet) -> Result<(), NoMemory>
    ensures added { OnOk result (names.new ≡ fold with_text names.old (mentions (view value.now))) }
    ensures kept { StillBegins names.old names.new }
{
    match value {
        Value::String(text) => push_mention(alloc, text.as_str(), names),
        Value::Array(values) => push_mentions_of_items(alloc, values, names),
        Value::Object(map) => push_mentions_of_members(alloc, map, names),
        _ => Ok(()),
    }
}

#[cycle(mentions)]
fn push_mentions_of_items(
    alloc: Global,
    values: &Vec<Value>,
    names: &mut NameSet,
) -> Result<(), NoMemory>
    ensures added { OnOk result (names.new
        ≡ fold with_text names.old (mentions_of_items (items_view values.now.items))) }
    ensures kept { StillBegins names.old names.new }
{
    'items: for value in values {
        push_mentions(alloc, value, names)?;
    }
    Ok(())
}

#[cycle(mentions)]
fn push_mentions_of_members(
    alloc: Global,
    map: &Map<String, Value>,
    names: &mut NameSet,
) -> Result<(), NoMemory>
    ensures added { OnOk result (names.new
        ≡ fold with_text names.old (mentions_of_members (members_view map.now.entries))) }
    ensures kept { StillBegins names.old names.new }
{
    'members: for (_name, value) in map.iter() {
        push_mentions(alloc, value, names)?;
    }
    Ok(())
}
