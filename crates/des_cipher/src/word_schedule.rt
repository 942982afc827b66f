//! The key schedule (FIPS 46-3, "Key schedule calculation") on words. A round key's bits are bits of the key, so the
//! round keys are combined of what each byte of the key gives to them, by tables.

ghost use Rattle.std.specs.Prelude.{◌≡◌, ℕ, ◌<◌, map, length, slice_index, nat_le, ◌+◌, ◌-◌, if◌then◌else◌, bit_xor, List, Bool};
ghost use Rattle.std.specs.Int.{bit_at};
ghost use Rattle.des_cipher.specs.Bits.{bits_of};
ghost use Rattle.des_cipher.specs.Schedule.{round_keys};
ghost use Rattle.des_cipher.specs.Words.{round_key_bits};
ghost use Rattle.des_cipher.specs.KeyPlaces.{left_place, right_place, bit_of_byte, bit_so_far};

use crate::left_rows::LEFT_KEYS;
use crate::right_rows::RIGHT_KEYS;

/// A round key of 48 bits in groups of six, each in the upper six bits of a byte: the groups for boxes 1, 3, 5 and 7
/// from the highest byte on, and those for 2, 4, 6 and 8.
#[derive(Clone, Copy)]
pub(crate) struct RoundKey {
    pub(crate) odd: u32,
    pub(crate) even: u32,
}

/// The left half words that a byte of the key gives.
fn left_row(i: usize, byte: u8) -> &'static [u32; 16]
    requires { i < 8 }
    ensures { (k : ℕ) (j : ℕ) → k < 16 → j < 32
        → bit_at (slice_index result.now k) j ≡ bit_of_byte i byte (left_place k j) }
{
    &LEFT_KEYS[i][(byte >> 4) as usize]
}

/// The right half words that a byte of the key gives.
fn right_row(i: usize, byte: u8) -> &'static [u32; 16]
    requires { i < 8 }
    ensures { (k : ℕ) (j : ℕ) → k < 16 → j < 32
        → bit_at (slice_index result.now k) j ≡ bit_of_byte i byte (right_place k j) }
{
    &RIGHT_KEYS[i][(byte >> 1 & 15) as usize]
}

/// Combines words with those of a row.
fn add(words: &mut [u32; 16], row: &[u32; 16])
    ensures { (k : ℕ) → k < 16
        → slice_index words.new k ≡ bit_xor (slice_index words.old k) (slice_index row.now k) }
{
    for i in 0..16 {
        words[i] = words[i] ^ row[i];
    }
}

/// The half words of a key, for each round.
fn half_words(key: &[u8; 8]) -> ([u32; 16], [u32; 16])
    ensures left { (k : ℕ) (j : ℕ) → k < 16 → j < 32
        → bit_at (slice_index result.0 k) j ≡ bit_so_far key.now 8 (left_place k j) }
    ensures right { (k : ℕ) (j : ℕ) → k < 16 → j < 32
        → bit_at (slice_index result.1 k) j ≡ bit_so_far key.now 8 (right_place k j) }
{
    let mut left = [0; 16];
    let mut right = [0; 16];
    for i in 0..8 {
        add(&mut left, left_row(i, key[i]));
        add(&mut right, right_row(i, key[i]));
    }
    (left, right)
}

/// A round key made of its half words: the left has the groups for boxes 1, 3, 2 and 4, the right those for 6, 8, 5 and
/// 7.
fn merged(left: u32, right: u32) -> RoundKey
    ensures odd { (j : ℕ) → j < 32
        → bit_at result.odd j ≡ (if nat_le 16 j then bit_at left j else bit_at right j) }
    ensures even { (j : ℕ) → j < 32
        → bit_at result.even j
        ≡ (if nat_le 16 j then bit_at left (j - 16) else bit_at right (16 + j)) }
{
    RoundKey {
        odd: left & 0xffff_0000 | right & 0xffff,
        even: left << 16 | right >> 16,
    }
}

/// The round keys of a key, in the order of the rounds.
pub(crate) fn round_keys(key: &[u8; 8]) -> [RoundKey; 16]
    ensures { map round_key_bits result ≡ round_keys (bits_of key.now) }
{
    let (left, right) = half_words(key);
    let mut keys = [RoundKey { odd: 0, even: 0 }; 16];
    for i in 0..16 {
        keys[i] = merged(left[i], right[i]);
    }
    keys
}
