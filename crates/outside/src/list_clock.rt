//! A clock in memory.

ghost use Rattle.std.specs.Prelude.{◌≡◌, [], ◌∷◌, true};
ghost use Rattle.outside.specs.Telling.{Appends};

use crate::clock::Clock;
use crate::lists::Moments;
use std::alloc::Global;
use std::marker::Model;
use std::vec::IntoIter;

/// A clock that gives the listed moments, of which the last repeats. Where it finds no memory to keep the moment, it
/// gives it all the same and tells it no longer.
#[derive(Drop)]
pub struct ListClock {
    next: u64,
    later: IntoIter<u64>,
    given: Vec<u64>,
    tells: bool,
}

impl Model for ListClock {
    ghost use Rattle.std.specs.Vec.Iter.{into_iter_items};
    ghost use Rattle.outside.specs.Scripts.{ClockScript};

    ghost Value = { ClockScript };

    ghost view = { λ c. record {
      next = c.next;
      later = into_iter_items c.later;
      given = c.given.items;
      tells = c.tells;
    } };
}

impl ListClock {
    /// A clock that will give the first moment, and then the later ones.
    pub fn new(alloc: Global, first: u64, later: Moments) -> ListClock
        ensures { result ≡ record { next = first; later = later; given = []; tells = true } }
    {
        ListClock {
            next: first,
            later: later.into_vec().into_iter(),
            given: Vec::new(alloc),
            tells: true,
        }
    }

    /// Whether the clock still tells its moments: none was lost for want of memory.
    pub fn tells(&self) -> bool
        ensures { result ≡ self.now.tells }
    {
        self.tells
    }
}

impl Clock for ListClock {
    ghost use Rattle.outside.specs.Scripts.{clock_moments, moments_after};

    ghost moments = { clock_moments };

    fn now(&mut self) -> u64
        ensures told { Appends (clock_moments self.old) (clock_moments self.new) (result ∷ []) }
        ensures moment { result ≡ self.old.next }
        ensures next { self.new.next ∷ self.new.later ≡ moments_after self.old.next self.old.later }
    {
        let moment = self.next;
        if self.given.push(moment).is_err() {
            self.tells = false;
        }
        if let Some(next) = self.later.next() {
            self.next = next;
        }
        moment
    }
}
