ghost use Rattle.std.specs.Prelude.{◌≡◌, ◌≤◌, ◌↔◌, Contains, IsTrue};
ghost use Rattle.std.specs.Bool.{OnTrue, OnFalse};
ghost use Rattle.outside.specs.Ends.{next_count};

/// Which calls of an end in memory fail, how many calls there were, and how many of them failed. Calls are numbered
/// from 1, and both counts stand still at 2^64 - 1.
#[derive(Debug, Drop)]
pub struct Schedule {
    pub failing: Vec<u64>,
    pub calls: u64,
    pub faults: u64,
}

impl Schedule {
    /// No call was made yet, and those of these numbers will fail.
    pub fn new(failing: Vec<u64>) -> Schedule
        ensures failing { result.failing ≡ failing }
        ensures calls { result.calls ≡ 0 }
        ensures faults { result.faults ≡ 0 }
    {
        Schedule {
            failing,
            calls: 0,
            faults: 0,
        }
    }

    /// Counts the call that is made now, and says whether it fails.
    pub fn next_fails(&mut self) -> bool
        ensures answer { IsTrue result ↔ Contains self.old.failing.items (next_count self.old.calls) }
        ensures failing { self.new.failing ≡ self.old.failing }
        ensures calls { self.new.calls ≡ next_count self.old.calls }
        ensures fault { OnTrue result (self.new.faults ≡ next_count self.old.faults) }
        ensures later { self.old.faults ≤ self.new.faults }
        ensures no_fault { OnFalse result (self.new.faults ≡ self.old.faults) }
    {
        self.calls = self.calls.saturating_add(1);
        let fails = self.failing.contains(&self.calls);
        if fails {
            self.faults = self.faults.saturating_add(1);
        }
        fails
    }

    /// Counts a fault that no number asked for.
    pub fn count_fault(&mut self)
        ensures fault { self.new ≡ record self.old { faults = next_count self.old.faults } }
        ensures later { self.old.faults ≤ self.new.faults }
    {
        self.faults = self.faults.saturating_add(1);
    }
}
