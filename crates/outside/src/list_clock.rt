ghost use Rattle.std.specs.Prelude.{◌≡◌, []};
ghost use Rattle.outside.specs.Clocks.{IsAnswered, time_after};

use crate::clock::Clock;
use std::sync::Wait;

/// A clock over a list of times, which it answers in order. Past the end the last one comes again, and 0 where the list
/// is empty. It tells its answers, and never waits.
#[derive(Debug, Drop)]
pub struct ListClock {
    times: Vec<u64>,
    answers: u64,
}

impl ListClock {
    pub fn new(times: Vec<u64>) -> ListClock
        ensures { ⟦<ListClock as Clock>⟧.tells result [] }
    {
        ListClock { times, answers: 0 }
    }
}

/// The time that a clock answers after so many calls.
fn time_at(times: &[u64], calls: u64) -> u64
    ensures { result ≡ time_after times.now calls }
{
    let Some(last) = times.len().checked_sub(1) else {
        return 0;
    };
    times[calls.min(last as u64) as usize]
}

impl Clock for ListClock {
    ghost tells = { λ clock answers. IsAnswered clock.times.items clock.answers answers };

    fn now_ms(&mut self) -> u64 {
        let time = time_at(self.times.as_slice(), self.answers);
        self.answers = self.answers.saturating_add(1);
        time
    }

    fn rest<R: Wait>(&mut self, _rt: &R, _ms: u64) {}
}
