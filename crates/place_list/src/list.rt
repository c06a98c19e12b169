ghost use Rattle.std.specs.Prelude.{◌≡◌, ◌≤◌, ℕ, true, false, [], ◌⊎◌, Contains};
ghost use Rattle.std.specs.Fn.{CalledAt};
ghost use Rattle.std.specs.List.Retain.{IsFiltered};

use std::alloc::Global;
use std::marker::Model;

/// Places in a list of something else, in ascending order, each at most once. Contracts see them as a list, and beside it
/// whether it is complete: no place was missed for want of memory.
#[derive(Drop)]
pub struct PlaceList {
    places: Vec<usize>,
    complete: bool,
    /// How many places were told to be stale since the last sweep. It only says when a sweep is worth its time.
    stale: usize,
}

impl Model for PlaceList {
    ghost use Rattle.place_list.specs.Places.{Places};

    ghost Value = { Places };

    ghost use Rattle.place_list.specs.Places.{seen, Ascends};

    ghost view = { seen };

    ghost invariant = { λ l. Ascends l.places.items };
}

impl PlaceList {
    ghost use Rattle.place_list.specs.Places.{Ascends};

    /// A list without a place, which takes no memory.
    pub fn new(alloc: Global) -> PlaceList
        ensures places { result.places ≡ [] }
        ensures complete { result.complete ≡ true }
    {
        PlaceList {
            places: Vec::new(alloc),
            complete: true,
            stale: 0,
        }
    }

    /// A list without a place that isn't complete, which takes no memory.
    pub fn partial(alloc: Global) -> PlaceList
        ensures places { result.places ≡ [] }
        ensures complete { result.complete ≡ false }
    {
        PlaceList {
            places: Vec::new(alloc),
            complete: false,
            stale: 0,
        }
    }

    /// Whether no place was missed for want of memory.
    pub fn is_complete(&self) -> bool
        ensures { result ≡ self.now.complete }
    {
        self.complete
    }

    /// The places, in ascending order.
    pub fn as_slice(&self) -> &[usize]
        ensures places { result.now ≡ self.now.places }
        ensures ascend { Ascends self.now.places }
    {
        self.places.as_slice()
    }

    /// The places that aren't before one, in ascending order.
    pub fn since(&self, place: usize) -> &[usize]
        ensures ascend { Ascends result.now }
        ensures keeps { (p : ℕ) → Contains self.now.places p → place ≤ p → Contains result.now p }
    {
        let at = match self.places.binary_search(&place) {
            Ok(at) => at,
            Err(at) => at,
        };
        &self.places[at..]
    }

    /// Adds a place, if it isn't there. For want of memory it is missed, and the list isn't complete from then on.
    pub fn add(&mut self, place: usize)
        ensures keeps { (p : ℕ) → Contains self.old.places p → Contains self.new.places p }
        ensures only { (p : ℕ) → Contains self.new.places p → Contains self.old.places p ⊎ (place ≡ p) }
        ensures added { self.new.complete ≡ true → Contains self.new.places place }
        ensures complete { self.new.complete ≡ true → self.old.complete ≡ true }
    {
        match self.places.binary_search(&place) {
            Ok(_found) => {}
            Err(at) => match self.places.insert(at, place) {
                Ok(()) => {}
                Err(_refused) => self.complete = false,
            },
        }
    }

    /// Counts a place of the list as stale. It is true where that makes more than half of them, so that a sweep is due.
    pub fn note_stale(&mut self) -> bool
        ensures { self.new ≡ self.old }
    {
        self.stale = self.stale.saturating_add(1);
        self.stale > self.places.len() / 2
    }

    /// Keeps the places at which the test is true. It takes no memory.
    pub fn retain<F: FnMut(&usize) -> bool>(&mut self, test: F)
        requires { F.IsAlwaysCallable test }
        ensures places { IsFiltered (CalledAt F.FnMut) test self.old.places self.new.places }
        ensures complete { self.new.complete ≡ self.old.complete }
    {
        self.places.retain(test);
        self.stale = 0;
    }
}
