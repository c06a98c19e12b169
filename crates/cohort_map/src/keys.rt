ghost use Rattle.std.specs.Prelude.{◌≡◌, ◌<◌, ◌≤◌, ◌+◌, ℕ, [], ◌∷◌, ◌++◌, Some, length, slice_get, IfOk, IfSome, IfNone, OnOk, OnErr};
ghost use Rattle.cohort_map.specs.declared.key.CohortKey.{CohortKey};

use crate::key::{CohortKey, PollerKey};
use crate::order::{copy_key, is_same_poller};
use scalar_val::NoMemory;
use std::alloc::Global;
use std::collections::BTreeMap;
use std::marker::Model;

/// The keys of cohorts, each at a place of its own. Contracts see them as a list in which no key stands twice.
#[derive(Drop)]
pub(crate) struct Keys {
    keys: Vec<CohortKey>,
    places: BTreeMap<CohortKey, usize>,
}

impl Model for Keys {
    ghost use Rattle.std.specs.Prelude.{List};
    ghost use Rattle.cohort_map.specs.declared.key.CohortKey.{CohortKey};
    ghost use Rattle.cohort_map.specs.Indexed.{IsIndexed};

    ghost Value = { List CohortKey };

    ghost view = { λ k. k.keys.items };

    ghost invariant = { λ k. IsIndexed k.keys.items k.places };
}

impl Keys {
    ghost use Rattle.cohort_map.specs.Indexed.{AreApart};
    ghost use Rattle.cohort_map.specs.Polled.{is_polled};

    pub(crate) fn new(alloc: Global) -> Keys
        ensures { result ≡ [] }
    {
        Keys {
            keys: Vec::new(alloc),
            places: BTreeMap::new(alloc),
        }
    }

    pub(crate) fn len(&self) -> usize
        ensures { result ≡ length self.now }
    {
        self.keys.len()
    }

    /// No key stands at two places.
    pub(crate) fn apart(&self)
        ensures { AreApart self.now }
    {
        let _ = self.keys.len();
    }

    pub(crate) fn get(&self, place: usize) -> &CohortKey
        requires { place < length self.now }
        ensures { slice_get self.now place ≡ Some result.now }
    {
        &self.keys[place]
    }

    /// Whether a cohort has a key, which is of this poller.
    pub(crate) fn is_polled_by(&self, place: usize, poller: &PollerKey) -> bool
        ensures { result ≡ is_polled poller.now (slice_get self.now place) }
    {
        match self.keys.get(place) {
            Some(key) => is_same_poller(poller, &key.poller),
            None => false,
        }
    }

    /// The place of a key, which is added where it isn't there.
    pub(crate) fn place_of(&mut self, alloc: Global, key: CohortKey) -> Result<usize, NoMemory>
        ensures place { IfOk result (λ place. slice_get self.new place ≡ Some key) }
        ensures stay { (i : ℕ) (k : CohortKey) → slice_get self.old i ≡ Some k → slice_get self.new i ≡ Some k }
        ensures grows { length self.old ≤ length self.new }
        ensures most { length self.new ≤ length self.old + 1 }
        ensures err { OnErr result (self.new ≡ self.old) }
    {
        match self.found(&key) {
            Some(place) => Ok(place),
            None => self.add(alloc, key),
        }
    }

    fn found(&self, key: &CohortKey) -> Option<usize>
        ensures some { IfSome result (λ place. slice_get self.now place ≡ Some key.now) }
        ensures none { IfNone result ((i : ℕ) → slice_get self.now i ≡ Some key.now → ⊥) }
    {
        self.places.get(key).copied()
    }

    fn add(&mut self, alloc: Global, key: CohortKey) -> Result<usize, NoMemory>
        requires { (i : ℕ) → slice_get self.old i ≡ Some key → ⊥ }
        ensures place { IfOk result (λ place. place ≡ length self.old) }
        ensures ok { OnOk result (self.new ≡ self.old ++ key ∷ []) }
        ensures err { OnErr result (self.new ≡ self.old) }
    {
        let place = self.keys.len();
        let copy = copy_key(alloc, &key)?;
        self.keys.reserve(1)?;
        match self.places.insert(copy, place) {
            Ok(_none) => {
                self.keys.push_reserved(key);
                Ok(place)
            }
            Err(_refused) => Err(NoMemory),
        }
    }
}
