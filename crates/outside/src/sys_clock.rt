use crate::clock::Clock;
use std::sync::Wait;
use std::time::Duration;
use std::{thread, time};

/// The system's clock that never goes back. It tells none of its answers. Where the system gives no time, its last
/// answer comes again. What the system answers is trusted and not proved.
#[derive(Clone, Copy, Debug)]
pub struct SysClock<R> {
    rt: R,
    last: u64,
}

impl<R: time::Clock> SysClock<R> {
    pub fn new(rt: R) -> SysClock<R> {
        SysClock { rt, last: 0 }
    }
}

impl<R: time::Clock> Clock for SysClock<R> {
    ghost tells = { λ _ _. ⊥ };

    fn now_ms(&mut self) -> u64 {
        if let Ok(time) = self.rt.monotonic()
            && let Ok(ms) = u64::try_from(time.as_millis())
        {
            self.last = ms;
        }
        self.last
    }

    fn rest<W: Wait>(&mut self, _rt: &W, ms: u64) {
        thread::sleep(&self.rt, Duration::from_millis(ms));
    }
}
