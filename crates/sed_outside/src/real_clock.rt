//! The edge over the system's clock, which tells nothing of its moments.
ghost use Rattle.std.specs.Prelude.{◌≡◌, None};

use crate::clock::Clock;
use std::thread;
use std::time::{self, Duration};

/// The system's clock that never goes back, from a start of its own. Where it can't be read, it is taken to stand. It
/// counts the moments that it gives.
#[derive(Drop)]
pub struct RealClock<'a, R> {
    rt: &'a R,
    last: i64,
    given: u64,
}

impl<'a, R: time::Clock> RealClock<'a, R> {
    /// The system's clock.
    pub fn new(rt: &'a R) -> RealClock<'a, R>
        ensures { ⟦<RealClock<'a, R> as Clock>⟧.given result ≡ 0 }
    {
        RealClock {
            rt,
            last: 0,
            given: 0,
        }
    }
}

// The moment that it is, and no earlier one than was given last.
fn read<R: time::Clock>(rt: &R, last: i64) -> i64 {
    if let Ok(since_start) = rt.monotonic() {
        let nanos = i64::try_from(since_start.as_nanos()).unwrap_or(i64::MAX);
        return last.max(nanos);
    }
    last
}

impl<'a, R: time::Clock> Clock for RealClock<'a, R> {
    ghost moments = { λ _. None };

    ghost asked = { λ _. None };

    ghost given = { λ clock. clock.given };

    fn now(&mut self) -> i64 {
        self.given = self.given.saturating_add(1);
        self.last = read(self.rt, self.last);
        self.last
    }

    fn sleep_until(&mut self, moment: i64) {
        self.last = read(self.rt, self.last);
        let left = moment.saturating_sub(self.last);
        if let Ok(nanos) = u64::try_from(left) {
            thread::sleep(self.rt, Duration::from_nanos(nanos));
        }
    }
}
