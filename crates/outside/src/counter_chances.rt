//! The maker of challenges that counts.

ghost use Rattle.std.specs.Prelude.{◌≡◌, ◌≢◌, ◌+◌, ◌*◌, ◌^◌, ◌<◌, ◌↔◌, ℕ, [], length, All, AllPairs, IfOk, OnErr, IsErr, replicate};
ghost use Rattle.std.specs.Int.{w64, to_le_bytes};
ghost use Rattle.channel_keys.specs.Credentials.{cred_of};
ghost use Rattle.channel_keys.specs.Des.{IsBlock};
ghost use Rattle.outside.specs.Counter.{challenge_of, counter_at, maker_key_of, most_draws};
ghost use Rattle.outside.specs.Drawing.{Draws};

use crate::chances::{Chances, Spent};
use channel_keys::CredKey;
use rand_chacha::ChaCha20Rng;
use rand_core::{Rng, SeedableRng};
use std::marker::Model;

/// Challenges that are the credentials of a count (this project's own choice): challenge n is the credential of
/// n = boot * 2^32 + count, as 8 bytes low byte first, under a key made of the seed. No two draws between two starts
/// are alike, nor are two draws of one seed under different numbers of the boot. Nothing is claimed of how hard they
/// are to guess.
#[derive(Drop)]
pub struct CounterChances {
    seed: [u8; 32],
    boot: u32,
    key: CredKey,
    count: u32,
}

impl Model for CounterChances {
    ghost use Rattle.std.specs.Prelude.{◌≡◌};
    ghost use Rattle.outside.specs.Counter.{counter_at, maker_key_of};
    ghost use Rattle.outside.specs.Drawing.{Drawing};

    ghost Value = { Drawing };

    ghost view = { λ c. counter_at c.seed c.boot c.count };

    ghost invariant = { λ c. c.key ≡ maker_key_of c.seed };
}

impl CounterChances {
    /// Chances as they stand after `start` with a seed of zeros and boot 0.
    pub fn new() -> CounterChances
        ensures exact { result ≡ counter_at (replicate 32 0) 0 0 }

        // Each challenge is a block of 8 bytes.
        ensures blocks { All IsBlock result.left }
    {
        CounterChances {
            seed: [0; 32],
            boot: 0,
            key: CredKey::new(maker_key([0; 32])),
            count: 0,
        }
    }
}

impl Chances for CounterChances {
    ghost drawing = { λ c. c };

    fn start(&mut self, seed: [u8; 32], boot: u32)
        ensures seed { self.new.seed ≡ seed }
        ensures boot { self.new.boot ≡ boot }
        ensures drawn { self.new.drawn ≡ [] }
        ensures exact { self.new ≡ counter_at seed boot 0 }

        // Each challenge is a block of 8 bytes.
        ensures blocks { All IsBlock self.new.left }
    {
        self.seed = seed;
        self.boot = boot;
        self.key = CredKey::new(maker_key(seed));
        self.count = 0;
    }

    fn next(&mut self) -> Result<[u8; 8], Spent>
        ensures drawn { IfOk result (Draws self.old self.new) }
        ensures spent { OnErr result (self.old.left ≡ []) }
        ensures unchanged { OnErr result (self.new ≡ self.old) }
        ensures value { IfOk result (λ challenge. challenge ≡
            challenge_of self.old.seed self.old.boot (length self.old.drawn)) }
        ensures at_the_end { IsErr result ↔ (length self.old.drawn ≡ most_draws) }

        // Between two starts no two draws are alike.
        ensures distinct { AllPairs (λ one other. one ≢ other) self.new.drawn }

        // None is a draw of the same seed under another number of the boot.
        ensures apart { IfOk result (λ challenge. (boot count : ℕ) → boot < 2 ^ 32 →
            count < 2 ^ 32 → boot ≢ self.old.boot →
            challenge ≢ challenge_of self.old.seed boot count) }
    {
        if self.count == u32::MAX {
            return Err(Spent);
        }
        let challenge = challenge(&self.key, self.boot, self.count);
        self.count += 1;
        Ok(challenge)
    }
}

/// The key of a seed: the first 16 bytes of its ChaCha20 stream.
pub fn maker_key(seed: [u8; 32]) -> [u8; 16]
    ensures { result ≡ maker_key_of seed }
{
    let mut key = [0; 16];
    ChaCha20Rng::from_seed(seed).fill_bytes(&mut key);
    key
}

/// The challenge of a number of the boot and a count, under a key.
fn challenge(key: &CredKey, boot: u32, count: u32) -> [u8; 8]
    ensures { result ≡ cred_of key.now (to_le_bytes w64 (boot * 2 ^ 32 + count)) }
{
    let number = (u64::from(boot) << 32) + u64::from(count);
    key.cred(number.to_le_bytes())
}
