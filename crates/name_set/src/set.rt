//! Names that are owned, each once.

ghost use Rattle.std.specs.Prelude.{◌≡◌, ◌++◌, ◌∷◌, [], OnOk, OnErr, IfOk, false, position};
ghost use Rattle.std.specs.List.{list_any};
ghost use Rattle.std.specs.Str.{bytes_eq};
ghost use Rattle.name_set.specs.Names.{first_at, inserted, Inserts, repeats};

use scalar_val::{List, NoMemory, Str};
use std::alloc::Global;
use std::collections::BTreeMap;
use std::marker::Model;

/// Names, each once, in the order in which they came.
#[derive(Debug, Drop)]
pub struct NameSet {
    names: List<Str>,
    places: BTreeMap<String, usize>,
}

impl Model for NameSet {
    ghost use Rattle.std.specs.Prelude.{◌≡◌, List, false};
    ghost use Rattle.name_set.specs.Names.{Text, repeats};
    ghost use Rattle.name_set.specs.Places.{Finds};

    ghost Value = { List Text };

    ghost view = { λ n. n.names };

    ghost invariant = { λ n. Finds n.places n.names × (repeats n.names ≡ false) };
}

impl NameSet {
    /// No names. It takes no memory.
    pub fn new(alloc: Global) -> NameSet
        ensures { result ≡ [] }
    {
        NameSet {
            names: List::new(alloc),
            places: BTreeMap::new(alloc),
        }
    }

    /// The names in the order in which they came. No two are the same.
    pub fn names(&self) -> &[Str]
        ensures value { result.now ≡ self.now }
        ensures once { repeats result.now ≡ false }
    {
        self.names.as_slice()
    }

    /// The place of a name, from 0, or `None` where it isn't there.
    pub fn place(&self, name: &str) -> Option<usize>
        ensures first { result ≡ first_at self.now name.now }
        ensures position { result ≡ position (bytes_eq name.now) self.now }
    {
        self.places.get(name).copied()
    }

    /// Whether a name is there.
    #[tactic(auto, using(crate::proofs::NameRules::among))]
    pub fn contains(&self, name: &str) -> bool
        ensures { result ≡ list_any (bytes_eq name.now) self.now }
    {
        self.place(name).is_some()
    }

    /// Adds a name at the end where it isn't there, and says whether it was new. Out of memory the names are as before.
    #[tactic(auto, using(crate::proofs::NameRules::kept, crate::proofs::NameRules::grown))]
    pub fn insert(&mut self, alloc: Global, name: Str) -> Result<bool, NoMemory>
        ensures new { IfOk result (λ new. Inserts new self.old self.new name) }
        ensures ok { OnOk result (self.new ≡ inserted self.old name) }
        ensures err { OnErr result (self.new ≡ self.old) }
    {
        if self.contains(name.as_str()) {
            return Ok(false);
        }
        self.add(alloc, name)?;
        Ok(true)
    }

    #[tactic(auto, using(crate::proofs::NameRules::finds_more, crate::proofs::NameRules::once_more))]
    fn add(&mut self, alloc: Global, name: Str) -> Result<(), NoMemory>
        requires { list_any (bytes_eq name) self.old ≡ false }
        ensures ok { OnOk result (self.new ≡ self.old ++ name ∷ []) }
        ensures err { OnErr result (self.new ≡ self.old) }
    {
        let key = String::from_str(alloc, name.as_str())?;
        let place = self.names.len();
        if self.names.push(name).is_err() {
            return Err(NoMemory);
        }
        match self.places.insert(key, place) {
            Ok(_before) => Ok(()),
            Err(_refused) => {
                let _name = self.names.remove(place);
                Err(NoMemory)
            }
        }
    }

    /// The names in the order in which they came. It takes no memory.
    pub fn into_names(self) -> List<Str>
        ensures { result ≡ self }
    {
        self.names
    }
}
