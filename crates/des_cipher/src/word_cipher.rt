//! The cipher (FIPS 46-3, "Enciphering") on a block in a word.

ghost use Rattle.std.specs.Prelude.{◌≡◌, map};
ghost use Rattle.des_cipher.specs.Bits.{number_bits};
ghost use Rattle.des_cipher.specs.Cipher.{cipher};
ghost use Rattle.des_cipher.specs.Words.{round_key_bits};

use crate::exchanges::{initial, last};
use crate::word_round::mix;
use crate::word_schedule::RoundKey;

/// The block enciphered by one round for each round key, in order.
pub(crate) fn encipher(keys: &[RoundKey; 16], block: u64) -> u64
    ensures { number_bits 64 result ≡ cipher (map round_key_bits keys.now) (number_bits 64 block) }
{
    let first = initial(block);
    let mut left = (first >> 32) as u32;
    let mut right = (first & 0xffff_ffff) as u32;
    for key in keys {
        let next = left ^ mix(right, key.odd, key.even);
        left = right;
        right = next;
    }
    last(u64::from(right) << 32 | u64::from(left))
}
