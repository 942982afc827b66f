//! A maker of challenges in memory.

ghost use Rattle.std.specs.Prelude.{◌≡◌, [], IfOk, OnErr, replicate};
ghost use Rattle.outside.specs.Drawing.{Draws};

use crate::chances::{Chances, Spent};
use crate::lists::Draws;
use std::marker::Model;

/// Listed challenges, of which each is drawn once. `start` empties the list drawn and leaves what is left.
#[derive(Drop)]
pub struct ListChances {
    seed: [u8; 32],
    boot: u32,
    draws: Draws,
    begun: usize,
    used: usize,
}

impl Model for ListChances {
    ghost use Rattle.std.specs.Prelude.{◌≤◌, ◌-◌, length, take, drop};
    ghost use Rattle.outside.specs.Drawing.{Drawing};

    ghost Value = { Drawing };

    ghost view = { λ c. record {
      seed = c.seed;
      boot = c.boot;
      drawn = take (c.used - c.begun) (drop c.begun c.draws);
      left = drop c.used c.draws;
    } };

    ghost invariant = { λ c. (c.begun ≤ c.used) × (c.used ≤ length c.draws) };
}

impl ListChances {
    /// Chances as they stand after `start` with a seed of zeros and boot 0.
    pub fn new(draws: Draws) -> ListChances
        ensures { result ≡ record { seed = replicate 32 0; boot = 0; drawn = []; left = draws } }
    {
        ListChances {
            seed: [0; 32],
            boot: 0,
            draws,
            begun: 0,
            used: 0,
        }
    }
}

impl Chances for ListChances {
    ghost drawing = { λ c. c };

    fn start(&mut self, seed: [u8; 32], boot: u32)
        ensures seed { self.new.seed ≡ seed }
        ensures boot { self.new.boot ≡ boot }
        ensures drawn { self.new.drawn ≡ [] }
        ensures left { self.new.left ≡ self.old.left }
    {
        self.seed = seed;
        self.boot = boot;
        self.begun = self.used;
    }

    fn next(&mut self) -> Result<[u8; 8], Spent> {
        let draws = self.draws.items();
        if self.used == draws.len() {
            return Err(Spent);
        }
        let challenge = draws[self.used];
        self.used += 1;
        Ok(challenge)
    }
}
