//! Borrowed names.

ghost use Rattle.std.specs.Prelude.{◌≡◌, ◌++◌, ◌∷◌, [], OnOk, OnErr, IfOk, position, unwrap_or, map};
ghost use Rattle.std.specs.BTreeMap.{IsUnchanged};
ghost use Rattle.std.specs.List.{list_any};
ghost use Rattle.std.specs.Str.{bytes_eq};
ghost use Rattle.name_set.specs.Names.{first_at, inserted, Inserts};
ghost use Rattle.name_set.specs.Places.{place_in, ArePlaces, Learns};

use scalar_val::{NoMemory, Str};
use std::alloc::Global;
use std::collections::BTreeMap;
use std::marker::Model;

/// Borrowed names in the order in which they came. A name may stand several times where it is pushed, and is found at
/// its first place.
#[derive(Drop)]
pub struct NameIndex<'a> {
    names: Vec<&'a Str>,
    places: BTreeMap<&'a str, usize>,
}

impl<'a> Model for NameIndex<'a> {
    ghost use Rattle.std.specs.Prelude.{List, map};
    ghost use Rattle.name_set.specs.Names.{Text};
    ghost use Rattle.name_set.specs.Places.{ArePlaces};

    ghost Value = { List Text };

    ghost view = { λ n. map (λ t. t.now) n.names.items };

    ghost invariant = { λ n. ArePlaces (map (λ t. t.now) n.names.items) n.places };
}

/// The place of a name, which is noted where the name is new.
fn place_or<'a>(
    places: &mut BTreeMap<&'a str, usize>,
    name: &'a str,
    place: usize,
) -> Result<usize, NoMemory>
    ensures err { OnErr result (IsUnchanged places.old places.new) }
    ensures found { IfOk result (λ found. found ≡ unwrap_or (place_in places.old name.now) place) }
    ensures learns { IfOk result (λ found. Learns places.old places.new name.now found) }
{
    match places.entry(name) {
        Ok(entry) => Ok(*entry.or_insert(place)),
        Err(_) => Err(NoMemory),
    }
}

/// Adds a name at the end, and its place where it is new.
fn put<'a>(
    names: &mut Vec<&'a Str>,
    places: &mut BTreeMap<&'a str, usize>,
    name: &'a Str,
) -> Result<(), NoMemory>
    requires { ArePlaces (map (λ t. t.now) names.old.items) places.old }
    ensures places { ArePlaces (map (λ t. t.now) names.new.items) places.new }
    ensures ok { OnOk result (map (λ t. t.now) names.new.items
        ≡ map (λ t. t.now) names.old.items ++ name.now ∷ []) }
    ensures err { OnErr result (map (λ t. t.now) names.new.items ≡ map (λ t. t.now) names.old.items) }
{
    let place = names.len();
    names.push(name)?;
    match place_or(places, name.as_str(), place) {
        Ok(_) => Ok(()),
        Err(_) => {
            names.pop();
            Err(NoMemory)
        }
    }
}

impl<'a> NameIndex<'a> {
    /// No names. It takes no memory.
    pub fn new(alloc: Global) -> NameIndex<'a>
        ensures { result ≡ [] }
    {
        NameIndex {
            names: Vec::new(alloc),
            places: BTreeMap::new(alloc),
        }
    }

    /// The place at which a name came first, from 0, or `None` where it isn't there.
    pub fn place(&self, name: &str) -> Option<usize>
        ensures first { result ≡ first_at self.now name.now }
        ensures position { result ≡ position (bytes_eq name.now) self.now }
    {
        self.places.get(name).copied()
    }

    /// Whether a name is there.
    #[tactic(auto, using(crate::proofs::NameRules::among))]
    pub fn contains(&self, name: &str) -> bool
        ensures { result ≡ list_any (bytes_eq name.now) self.now }
    {
        self.place(name).is_some()
    }

    /// Adds a name at the end, be it there or not. Out of memory the names are as before.
    pub fn push(&mut self, name: &'a Str) -> Result<(), NoMemory>
        ensures ok { OnOk result (self.new ≡ self.old ++ name.now ∷ []) }
        ensures err { OnErr result (self.new ≡ self.old) }
    {
        put(&mut self.names, &mut self.places, name)
    }

    /// Adds a name at the end where it isn't there, and says whether it was new. Out of memory the names are as before.
    #[tactic(auto, using(crate::proofs::NameRules::kept, crate::proofs::NameRules::grown))]
    pub fn insert(&mut self, name: &'a Str) -> Result<bool, NoMemory>
        ensures new { IfOk result (λ new. Inserts new self.old self.new name.now) }
        ensures ok { OnOk result (self.new ≡ inserted self.old name.now) }
        ensures err { OnErr result (self.new ≡ self.old) }
    {
        if self.contains(name.as_str()) {
            return Ok(false);
        }
        self.push(name)?;
        Ok(true)
    }
}
