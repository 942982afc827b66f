//! The cipher function f (FIPS 46-3, "The Cipher Function f") on words. A half that is rotated has the groups of E side
//! by side: the groups for boxes 1, 3, 5 and 7 in one rotation, and those for 2, 4, 6 and 8 in another.

ghost use Rattle.std.specs.Prelude.{◌≡◌, ◌<◌, ◌≤◌, ◌/◌, ◌^◌, bit_and};
ghost use Rattle.des_cipher.specs.Words.{key_bits, joined};
ghost use Rattle.des_cipher.specs.Bits.{number_bits};
ghost use Rattle.des_cipher.specs.Cipher.{mixed};

use crate::joined_boxes::SUBSTITUTION;

/// f of a half and a round key.
pub(crate) fn mix(half: u32, odd: u32, even: u32) -> u32
    ensures { number_bits 32 result ≡ mixed (number_bits 32 half) (key_bits odd even) }
{
    let first = half.rotate_left(31) ^ odd;
    let second = half.rotate_left(3) ^ even;
    entry(0, first, 26)
        ^ entry(1, second, 26)
        ^ entry(2, first, 18)
        ^ entry(3, second, 18)
        ^ entry(4, first, 10)
        ^ entry(5, second, 10)
        ^ entry(6, first, 2)
        ^ entry(7, second, 2)
}

/// P of what a box gives for six bits of a word, of which the lowest is at a place.
fn entry(table: usize, word: u32, place: u32) -> u32
    requires known { table < 8 }
    requires place { place < 32 }
    ensures { number_bits 32 result ≡ joined table (bit_and (word / 2 ^ place) 63) }
{
    SUBSTITUTION[table][(word >> place & 63) as usize]
}
