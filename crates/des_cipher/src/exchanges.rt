//! The initial and the final permutation (FIPS 46-3, IP and its inverse) of a block in a word, each as five exchanges
//! of bits.

ghost use Rattle.std.specs.Prelude.{◌≡◌, ◌<◌};
ghost use Rattle.des_cipher.specs.Words.{exchanged};
ghost use Rattle.des_cipher.specs.Bits.{permuted, number_bits};
ghost use Rattle.des_cipher.specs.Tables.{initial_permutation, final_permutation};

/// A word whose bits under the mask are exchanged with those that many places higher.
pub(crate) fn exchange(x: u64, distance: u32, mask: u64) -> u64
    requires { distance < 64 }
    ensures { result ≡ exchanged x distance mask }
{
    let differ = ((x >> distance) ^ x) & mask;
    x ^ differ ^ (differ << distance)
}

/// IP of a block.
pub(crate) fn initial(block: u64) -> u64
    ensures { number_bits 64 result ≡ permuted initial_permutation (number_bits 64 block) }
{
    let x = exchange(block, 36, 0x0f0f_0f0f);
    let x = exchange(x, 48, 0xffff);
    let x = exchange(x, 30, 0xcccc_cccc);
    let x = exchange(x, 24, 0xff00_ff00);
    exchange(x, 33, 0x5555_5555)
}

/// The inverse of IP of a block: the same exchanges, the last first.
pub(crate) fn last(block: u64) -> u64
    ensures { number_bits 64 result ≡ permuted final_permutation (number_bits 64 block) }
{
    let x = exchange(block, 33, 0x5555_5555);
    let x = exchange(x, 24, 0xff00_ff00);
    let x = exchange(x, 30, 0xcccc_cccc);
    let x = exchange(x, 48, 0xffff);
    exchange(x, 36, 0x0f0f_0f0f)
}
