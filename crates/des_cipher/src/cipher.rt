//! The cipher of FIPS 46-3 on lists of bits.

ghost use Rattle.std.specs.Prelude.{◌≡◌, length, take, drop};
ghost use Rattle.des_cipher.specs.Cipher.{cipher, mixed, substituted, substitutions, box_place};
ghost use Rattle.des_cipher.specs.Tables.{s_boxes};

use crate::bits::{combine, join, nibble_bits, number, permute, put};
use crate::tables::{
    EXPANSION, FINAL_PERMUTATION, INITIAL_PERMUTATION, ROUND_PERMUTATION, S_BOXES,
};

/// The block enciphered by one round for each round key, in order.
pub(crate) fn encipher(keys: &[[bool; 48]; 16], block: &[bool; 64]) -> [bool; 64]
    ensures { result ≡ cipher keys.now block.now }
{
    let (mut left, mut right) = halves(&permute(&INITIAL_PERMUTATION, block));
    for key in keys {
        let mut next = left;
        combine(&mut next, &mix(&right, key));
        left = right;
        right = next;
    }
    let mut exchanged = [false; 64];
    join(&mut exchanged, &right, &left);
    permute(&FINAL_PERMUTATION, &exchanged)
}

/// The left and the right half of a block.
fn halves(block: &[bool; 64]) -> ([bool; 32], [bool; 32])
    ensures left { result.0 ≡ take 32 block.now }
    ensures right { result.1 ≡ drop 32 block.now }
{
    let mut left = [false; 32];
    let mut right = [false; 32];
    left.copy_from_slice(&block[..32]);
    right.copy_from_slice(&block[32..]);
    (left, right)
}

/// The cipher function f of a half and a round key.
fn mix(half: &[bool; 32], key: &[bool; 48]) -> [bool; 32]
    ensures { result ≡ mixed half.now key.now }
{
    let mut expanded = permute(&EXPANSION, half);
    combine(&mut expanded, key);
    permute(&ROUND_PERMUTATION, &substitute_all(&expanded))
}

/// The 32 bits that the eight boxes give for 48.
fn substitute_all(bits: &[bool; 48]) -> [bool; 32]
    ensures { result ≡ substitutions s_boxes bits.now }
{
    let mut out = [false; 32];
    for i in 0..8 {
        put(
            &mut out,
            4 * i,
            &substitute(&S_BOXES[i], &bits[6 * i..6 * i + 6]),
        );
    }
    out
}

/// The four bits that a box gives for six: the first and the last are the row, the middle four the column.
fn substitute(table: &[u8; 64], six: &[bool]) -> [bool; 4]
    requires { length six.now ≡ 6 }
    ensures { result ≡ substituted table.now six.now }
{
    let row = number(&[six[0], six[5]]) as usize;
    let column = number(&six[1..5]) as usize;
    nibble_bits(table[16 * row + column])
}
