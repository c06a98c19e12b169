ghost use Rattle.std.specs.Prelude.{◌≡◌, ◌<◌, ◌==◌, ◌++◌, ◌∷◌, [], false, length, IfSome, OnOk};
ghost use Rattle.std.specs.List.{position_from};
ghost use Rattle.cohort_map.specs.Choice.{is_among};

use scalar_val::NoMemory;
use std::alloc::Global;
use std::collections::BTreeMap;
use std::marker::Model;

/// The cohorts of a batch, each once, with an index of their places. Contracts see the list of them.
#[derive(Drop)]
pub(crate) struct Chosen {
    cohorts: Vec<usize>,
    places: BTreeMap<usize, usize>,
}

impl Model for Chosen {
    ghost use Rattle.std.specs.Prelude.{ℕ, List};
    ghost use Rattle.cohort_map.specs.Choice.{ArePlaced};

    ghost Value = { List ℕ };

    ghost view = { λ c. c.cohorts.items };

    ghost invariant = { λ c. ArePlaced c.cohorts.items c.places };
}

impl Chosen {
    pub(crate) fn new(alloc: Global) -> Chosen
        ensures { result ≡ [] }
    {
        Chosen {
            cohorts: Vec::new(alloc),
            places: BTreeMap::new(alloc),
        }
    }

    pub(crate) fn len(&self) -> usize
        ensures { result ≡ length self.now }
    {
        self.cohorts.len()
    }

    pub(crate) fn as_slice(&self) -> &[usize]
        ensures { result.now ≡ self.now }
    {
        self.cohorts.as_slice()
    }

    /// The place of a cohort.
    pub(crate) fn position(&self, cohort: usize) -> Option<usize>
        ensures within { IfSome result (λ place. place < length self.now) }
        ensures place { result ≡ position_from (λ c. c == cohort) 0 self.now }
    {
        self.places.get(&cohort).copied()
    }

    pub(crate) fn has(&self, cohort: usize) -> bool
        ensures { result ≡ is_among cohort self.now }
    {
        self.places.contains_key(&cohort)
    }

    /// Adds a cohort at the end, which isn't there yet. For want of memory nothing is added.
    pub(crate) fn add(&mut self, cohort: usize) -> Result<(), NoMemory>
        requires { is_among cohort self.old ≡ false }
        ensures { OnOk result (self.new ≡ self.old ++ cohort ∷ []) }
    {
        let place = self.cohorts.len();
        self.cohorts.reserve(1)?;
        match self.places.insert(cohort, place) {
            Ok(_none) => {
                self.cohorts.push_reserved(cohort);
                Ok(())
            }
            Err(_refused) => Err(NoMemory),
        }
    }
}
