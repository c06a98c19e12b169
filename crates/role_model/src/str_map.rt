ghost use Rattle.std.specs.Prelude.{◌≡◌, [], OnOk, OnErr};
ghost use Rattle.std.specs.Option.{option_copied};
ghost use Rattle.role_model.specs.Texts.{value_of, with_value};

use scalar_val::{NoMemory, Str};
use std::alloc::Global;
use std::collections::BTreeMap;
use std::marker::Model;

/// A map from texts to texts, which contracts see as the list of its names and values in ascending order of the
/// names' bytes. A name stands there once.
#[derive(Debug, Drop)]
pub struct StrMap {
    entries: BTreeMap<String, Str>,
}

impl Model for StrMap {
    ghost use Rattle.std.specs.Prelude.{map, string_bytes};
    ghost use Rattle.role_model.specs.Texts.{Texts};

    ghost Value = { Texts };

    ghost view = { λ m. map (λ e. (string_bytes e.0, e.1)) m.entries.entries };
}

impl StrMap {
    pub fn new(alloc: Global) -> StrMap
        ensures { result ≡ [] }
    {
        StrMap {
            entries: BTreeMap::new(alloc),
        }
    }

    /// The value of a name, or `None` where the map doesn't have the name.
    pub fn get(&self, name: &str) -> Option<&Str>
        ensures { option_copied result ≡ value_of name.now self.now }
    {
        self.entries.get(name)
    }

    /// Gives a name a value, in place of the one that it had. The map is unchanged where memory is refused.
    pub fn insert(&mut self, alloc: Global, name: Str, value: Str) -> Result<(), NoMemory>
        ensures ok { OnOk result (self.new ≡ with_value name value self.old) }
        ensures err { OnErr result (self.new ≡ self.old) }
    {
        let key = String::from_str(alloc, name.as_str())?;
        match self.entries.insert(key, value) {
            Ok(_before) => Ok(()),
            Err(_refused) => Err(NoMemory),
        }
    }
}
