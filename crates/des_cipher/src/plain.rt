//! DES on lists of bits, step by step as FIPS 46-3 has it: slow, and the reference for the calls of the same names at
//! the root.

ghost use Rattle.std.specs.Prelude.{◌≡◌, ℕ, List};
ghost use Rattle.des_cipher.specs.Bits.{bits_of};
ghost use Rattle.des_cipher.specs.Des.{des_of, des_back_of, spread_of, IsBlock, SameButLowBits};

use crate::bits::{bytes_from, number, write_bits};
use crate::cipher::encipher;
use crate::schedule::key_schedule;

/// A key of 7 bytes spread over 8: seven bits in each byte, in order, and the low bit of each zero
/// (MS-NRPC 3.1.4.4.2, InitLMKey).
pub fn spread_key(key: [u8; 7]) -> [u8; 8]
    ensures { result ≡ spread_of key }
{
    let mut bits = [false; 56];
    write_bits(&key, &mut bits);
    let mut spread = [0; 8];
    for i in 0..8 {
        spread[i] = 2 * number(&bits[7 * i..7 * i + 7]);
    }
    spread
}

/// DES (FIPS 46-3) of a block under a key of 8 bytes. The low bit of each byte of the key, its parity bit, has no
/// effect.
pub fn des_block8(key: [u8; 8], block: [u8; 8]) -> [u8; 8]
    ensures value { result ≡ des_of key block }
    ensures parity_is_free { (other : List ℕ) → SameButLowBits key other →
        result ≡ des_of other block }
{
    let mut key_bits = [false; 64];
    write_bits(&key, &mut key_bits);
    bytes_from(&encipher(&key_schedule(&key_bits), &block_bits(&block)))
}

/// DES (FIPS 46-3) of a block under a key of 7 bytes, which is spread over 8 (MS-NLMP 6, `DES(K, D)`).
pub fn des_block(key: [u8; 7], block: [u8; 8]) -> [u8; 8]
    ensures { result ≡ des_of (spread_of key) block }
{
    des_block8(spread_key(key), block)
}

/// The inverse of `des_block` (FIPS 46-3, "Deciphering"): the cipher under the same round keys in reverse order.
pub fn des_back(key: [u8; 7], block: [u8; 8]) -> [u8; 8]
    ensures value { result ≡ des_back_of (spread_of key) block }

    // Each undoes the other, for this key.
    ensures undoes { (plain : List ℕ) → IsBlock plain
        → des_back_of (spread_of key) (des_of (spread_of key) plain) ≡ plain }
    ensures undone { des_of (spread_of key) result ≡ block }
{
    let mut key_bits = [false; 64];
    write_bits(&spread_key(key), &mut key_bits);
    let mut keys = key_schedule(&key_bits);
    keys.reverse();
    bytes_from(&encipher(&keys, &block_bits(&block)))
}

/// The bits of a block, which has 8 bytes.
fn block_bits(block: &[u8; 8]) -> [bool; 64]
    ensures value { result ≡ bits_of block.now }
    ensures is_block { IsBlock block.now }
{
    let mut bits = [false; 64];
    write_bits(block, &mut bits);
    bits
}
