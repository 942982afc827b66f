//! DES on words of 64 bits, and keys with their round keys kept.

ghost use Rattle.std.specs.Prelude.{◌≡◌, ℕ, List, map, reverse};
ghost use Rattle.des_cipher.specs.Bits.{bits_of, bytes_of};
ghost use Rattle.des_cipher.specs.Cipher.{cipher};
ghost use Rattle.des_cipher.specs.Des.{des_of, des_back_of, spread_of, IsBlock, SameButLowBits};
ghost use Rattle.des_cipher.specs.Schedule.{round_keys as keys_of};
ghost use Rattle.des_cipher.specs.Words.{round_key_bits};

use crate::word_cipher::encipher;
use crate::word_schedule::{RoundKey, round_keys};
use std::marker::Model;

/// A key of 7 bytes with its sixteen round keys (FIPS 46-3, "Key schedule calculation"), for many blocks under one key.
/// Clauses see the key.
#[derive(Drop)]
pub struct Schedule {
    key: [u8; 7],
    keys: [RoundKey; 16],
}

impl Model for Schedule {
    ghost Value = { List ℕ };

    ghost view = { λ s. s.key };

    ghost invariant = { λ s. map round_key_bits s.keys ≡ keys_of (bits_of (spread_of s.key)) };
}

impl Schedule {
    /// The schedule of a key of 7 bytes, which is spread over 8 (MS-NLMP 6, `DES(K, D)`).
    pub fn new(key: [u8; 7]) -> Schedule
        ensures { result ≡ key }
    {
        Schedule {
            key,
            keys: round_keys(&spread_key(key)),
        }
    }

    /// DES (FIPS 46-3) of a block of 8 bytes.
    pub fn block(&self, block: [u8; 8]) -> [u8; 8]
        ensures { result ≡ des_of (spread_of self.now) block }
    {
        encipher_bytes(&self.keys, block)
    }

    /// The inverse of `block` (FIPS 46-3, "Deciphering"): the cipher under the same round keys in reverse order.
    pub fn back(&self, block: [u8; 8]) -> [u8; 8]
        ensures value { result ≡ des_back_of (spread_of self.now) block }

        // Each undoes the other, for this key.
        ensures undoes { (plain : List ℕ) → IsBlock plain
            → des_back_of (spread_of self.now) (des_of (spread_of self.now) plain) ≡ plain }
        ensures undone { des_of (spread_of self.now) result ≡ block }
    {
        encipher_bytes(&backward(&self.keys), block)
    }
}

/// DES (FIPS 46-3) of a block under a key of 8 bytes. The low bit of each byte of the key, its parity bit, has no
/// effect.
pub fn des_block8(key: [u8; 8], block: [u8; 8]) -> [u8; 8]
    ensures value { result ≡ des_of key block }
    ensures parity_is_free { (other : List ℕ) → SameButLowBits key other →
        result ≡ des_of other block }
{
    encipher_bytes(&round_keys(&key), block)
}

/// DES (FIPS 46-3) of a block under a key of 7 bytes, which is spread over 8 (MS-NLMP 6, `DES(K, D)`).
pub fn des_block(key: [u8; 7], block: [u8; 8]) -> [u8; 8]
    ensures { result ≡ des_of (spread_of key) block }
{
    Schedule::new(key).block(block)
}

/// The inverse of `des_block` (FIPS 46-3, "Deciphering"): the cipher under the same round keys in reverse order.
pub fn des_back(key: [u8; 7], block: [u8; 8]) -> [u8; 8]
    ensures value { result ≡ des_back_of (spread_of key) block }

    // Each undoes the other, for this key.
    ensures undoes { (plain : List ℕ) → IsBlock plain
        → des_back_of (spread_of key) (des_of (spread_of key) plain) ≡ plain }
    ensures undone { des_of (spread_of key) result ≡ block }
{
    Schedule::new(key).back(block)
}

/// A key of 7 bytes spread over 8: seven bits in each byte, in order, and the low bit of each zero
/// (MS-NRPC 3.1.4.4.2, InitLMKey).
pub fn spread_key(key: [u8; 7]) -> [u8; 8]
    ensures { result ≡ spread_of key }
{
    let n = u64::from_be_bytes([key[0], key[1], key[2], key[3], key[4], key[5], key[6], 0]);
    [
        (n >> 56 & 254) as u8,
        (n >> 49 & 254) as u8,
        (n >> 42 & 254) as u8,
        (n >> 35 & 254) as u8,
        (n >> 28 & 254) as u8,
        (n >> 21 & 254) as u8,
        (n >> 14 & 254) as u8,
        (n >> 7 & 254) as u8,
    ]
}

/// A block of bytes enciphered under round keys.
fn encipher_bytes(keys: &[RoundKey; 16], block: [u8; 8]) -> [u8; 8]
    ensures value { result ≡ bytes_of (cipher (map round_key_bits keys.now) (bits_of block)) }
    ensures is_block { IsBlock block }
{
    encipher(keys, u64::from_be_bytes(block)).to_be_bytes()
}

/// Round keys in reverse order.
fn backward(keys: &[RoundKey; 16]) -> [RoundKey; 16]
    ensures { result ≡ reverse keys.now }
{
    let mut reversed = *keys;
    reversed.reverse();
    reversed
}
