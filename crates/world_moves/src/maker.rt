//! The maker of challenges of a world.

ghost use Rattle.std.specs.Prelude.{◌≡◌, ◌≢◌, [], All, AllPairs, IfOk, OnErr};
ghost use Rattle.channel_keys.specs.Des.{IsBlock};
ghost use Rattle.outside.specs.Counter.{counter_at};
ghost use Rattle.outside.specs.Drawing.{Draws};

use outside::{Chances, CounterChances, Spent};
use std::marker::Model;

/// The maker of challenges from which all ends of a world draw, as what it did since it was started: no two of its
/// draws are alike.
#[derive(Drop)]
pub struct Maker {
    chances: CounterChances,
}

impl Model for Maker {
    ghost use Rattle.std.specs.Prelude.{◌≢◌, All, AllPairs};
    ghost use Rattle.channel_keys.specs.Des.{IsBlock};
    ghost use Rattle.outside.specs.Drawing.{Drawing};

    ghost Value = { Drawing };

    ghost view = { λ m. m.chances };

    ghost invariant = { λ m. AllPairs (λ one other. one ≢ other) m.chances.drawn
        × All IsBlock m.chances.drawn × All IsBlock m.chances.left };
}

impl Maker {
    /// The maker of a seed and of boot 0, from which nothing was drawn.
    pub(crate) fn new(seed: [u8; 32]) -> Maker
        ensures { result ≡ counter_at seed 0 0 }
    {
        let mut chances = CounterChances::new();
        chances.start(seed, 0);
        Maker { chances }
    }

    /// No two draws are alike. It is called so that this is known.
    pub(crate) fn draws_differ(&self)
        ensures { AllPairs (λ one other. one ≢ other) self.now.drawn }
    {
        let _chances = &self.chances;
    }

    /// Each draw has 8 bytes. It is called so that this is known.
    pub(crate) fn draws_are_blocks(&self)
        ensures { All IsBlock self.now.drawn }
    {
        let _chances = &self.chances;
    }
}

impl Chances for Maker {
    ghost drawing = { λ m. m };

    fn start(&mut self, seed: [u8; 32], boot: u32)
        ensures seed { self.new.seed ≡ seed }
        ensures boot { self.new.boot ≡ boot }
        ensures drawn { self.new.drawn ≡ [] }
        ensures exact { self.new ≡ counter_at seed boot 0 }
    {
        self.chances.start(seed, boot);
    }

    fn next(&mut self) -> Result<[u8; 8], Spent>
        ensures drawn { IfOk result (Draws self.old self.new) }
        ensures spent { OnErr result (self.old.left ≡ []) }
        ensures unchanged { OnErr result (self.new ≡ self.old) }
    {
        self.chances.next()
    }
}
