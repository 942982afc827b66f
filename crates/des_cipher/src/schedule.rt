//! The key schedule of FIPS 46-3 on lists of bits.

ghost use Rattle.std.specs.Prelude.{◌≡◌};
ghost use Rattle.des_cipher.specs.Schedule.{round_keys};

use crate::bits::{join, permute};
use crate::tables::{KEY_CHOICE_C, KEY_CHOICE_D, ROTATIONS, ROUND_KEY_CHOICE};

/// The round keys of a key, in the order of the rounds.
pub(crate) fn key_schedule(key: &[bool; 64]) -> [[bool; 48]; 16]
    ensures { result ≡ round_keys key.now }
{
    let mut c = permute(&KEY_CHOICE_C, key);
    let mut d = permute(&KEY_CHOICE_D, key);
    let mut keys = [[false; 48]; 16];
    for i in 0..16 {
        c.rotate_left(ROTATIONS[i] as usize);
        d.rotate_left(ROTATIONS[i] as usize);
        let mut halves = [false; 56];
        join(&mut halves, &c, &d);
        keys[i] = permute(&ROUND_KEY_CHOICE, &halves);
    }
    keys
}
