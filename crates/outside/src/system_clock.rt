//! The clock that is the system's.

ghost use Rattle.std.specs.Prelude.{◌≡◌, ◌≤◌, ◌⊎◌};
ghost use Rattle.std.specs.Duration.{as_nanos};
ghost use Rattle.outside.specs.Causes.{next_count};
ghost use Rattle.outside.specs.Moments.{moment_after_1970, moment_of_1970};

use crate::clock::Clock;
use std::marker::Model;
use std::time;
use std::time::Duration;

/// The moment of 1970-01-01.
const MOMENT_OF_1970: u64 = 116_444_736_000_000_000;

/// The system's clock, seen as the count of times that it couldn't be read. It tells nothing of the moments given.
#[derive(Drop)]
pub struct SystemClock<'a, R: time::Clock> {
    clock: &'a R,
    faults: u64,
}

impl<'a, R: time::Clock> Model for SystemClock<'a, R> {
    ghost use Rattle.std.specs.Prelude.{ℕ};

    ghost Value = { ℕ };

    ghost view = { λ c. c.faults };
}

impl<'a, R: time::Clock> SystemClock<'a, R> {
    /// Nothing has failed yet.
    pub fn new(clock: &'a R) -> Self
        ensures { result ≡ 0 }
    {
        SystemClock { clock, faults: 0 }
    }
}

impl<R: time::Clock> Clock for SystemClock<'_, R> {
    ghost use Rattle.std.specs.Prelude.{None};

    ghost moments = { λ c. None };

    // A clock that can't be read, as one that is set before 1970, is taken to stand at 1970-01-01.
    fn now(&mut self) -> u64
        ensures least { moment_of_1970 ≤ result }
        ensures counts { (self.new ≡ self.old) ⊎
            ((self.new ≡ next_count self.old) × (result ≡ moment_of_1970)) }
    {
        match self.clock.since_1970() {
            Ok(time) => moment_after_1970(time),
            Err(_) => {
                self.faults = self.faults.saturating_add(1);
                MOMENT_OF_1970
            }
        }
    }
}

/// The moment that long after 1970-01-01, or the last one of 64 bits.
fn moment_after_1970(time: Duration) -> u64
    ensures { result ≡ moment_after_1970 (as_nanos time) }
{
    u64::try_from(u128::from(MOMENT_OF_1970) + time.as_nanos() / 100).unwrap_or(u64::MAX)
}
