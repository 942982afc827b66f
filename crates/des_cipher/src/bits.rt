//! Lists of bits, numbered from 1 as FIPS 46-3 does, and the bytes that they write.

ghost use Rattle.std.specs.Prelude.{◌≡◌, ◌+◌, ◌*◌, ◌^◌, ◌<◌, ◌≤◌, ◌&&◌, ◌++◌, ◌==◌, IsTrue, nat_le, take, drop, length};
ghost use Rattle.std.specs.Int.{bit_at};
ghost use Rattle.std.specs.List.{list_all};
ghost use Rattle.des_cipher.specs.Bits.{permuted, combined, number_bits, number_of, bits_of, bytes_of};

/// The bits with the numbers listed, in this order.
pub(crate) fn permute<const N: usize>(places: &[u8; N], bits: &[bool]) -> [bool; N]
    requires { IsTrue (list_all (λ p. nat_le 1 p && nat_le p (length bits.now)) places.now) }
    ensures value { result ≡ permuted places.now bits.now }
    ensures len { length result ≡ N }
{
    let mut chosen = [false; N];
    for i in 0..N {
        chosen[i] = bits[places[i] as usize - 1];
    }
    chosen
}

/// Combines bits with others by exclusive or.
pub(crate) fn combine(bits: &mut [bool], others: &[bool])
    requires { length bits.old ≡ length others.now }
    ensures { bits.new ≡ combined bits.old others.now }
{
    for i in 0..bits.len() {
        bits[i] = bits[i] != others[i];
    }
}

/// Writes a part into bits from a place on.
pub(crate) fn put(bits: &mut [bool], at: usize, part: &[bool])
    requires { at + length part.now ≤ length bits.old }
    ensures { bits.new ≡ take at bits.old ++ part.now ++ drop (at + length part.now) bits.old }
{
    bits[at..at + part.len()].copy_from_slice(part);
}

/// Writes two parts, one after the other, over bits.
pub(crate) fn join(bits: &mut [bool], first: &[bool], second: &[bool])
    requires { length first.now + length second.now ≡ length bits.old }
    ensures { bits.new ≡ first.now ++ second.now }
{
    put(bits, 0, first);
    put(bits, first.len(), second);
}

/// Whether the bit of a number at a place is set, the lowest being at 0.
pub(crate) fn is_set(number: u8, place: u32) -> bool
    requires { place < 8 }
    ensures { result ≡ (bit_at number place == 1) }
{
    (number >> place) & 1 == 1
}

/// The last four bits of a number, the highest first.
#[tactic(auto, unfolding(crate::specs::Bits::number_bits))]
pub(crate) fn nibble_bits(number: u8) -> [bool; 4]
    ensures { result ≡ number_bits 4 number }
{
    [
        is_set(number, 3),
        is_set(number, 2),
        is_set(number, 1),
        is_set(number, 0),
    ]
}

/// The bits of a byte, the highest first.
#[tactic(auto, unfolding(crate::specs::Bits::number_bits))]
pub(crate) fn byte_bits(byte: u8) -> [bool; 8]
    ensures { result ≡ number_bits 8 byte }
{
    [
        is_set(byte, 7),
        is_set(byte, 6),
        is_set(byte, 5),
        is_set(byte, 4),
        is_set(byte, 3),
        is_set(byte, 2),
        is_set(byte, 1),
        is_set(byte, 0),
    ]
}

/// The number that up to eight bits write, the highest first.
#[tactic(auto, using(crate::proofs::BitLemmas::number_of_push, crate::proofs::BitLemmas::number_of_none))]
pub(crate) fn number(bits: &[bool]) -> u8
    requires { length bits.now ≤ 8 }
    ensures value { result ≡ number_of bits.now }
    ensures below { result < 2 ^ length bits.now }
{
    let mut value = 0u8;
    for bit in bits {
        value = value * 2 + u8::from(*bit);
    }
    value
}

/// Writes the bits of bytes, eight for each.
#[tactic(auto, using(crate::proofs::BitLemmas::bits_of_none))]
pub(crate) fn write_bits(bytes: &[u8], bits: &mut [bool])
    requires { length bits.old ≡ 8 * length bytes.now }
    ensures { bits.new ≡ bits_of bytes.now }
{
    for i in 0..bytes.len() {
        put(bits, 8 * i, &byte_bits(bytes[i]));
    }
}

/// The 8 bytes that 64 bits write.
#[tactic(auto, unfolding(crate::specs::Bits::bytes_of))]
pub(crate) fn bytes_from(bits: &[bool; 64]) -> [u8; 8]
    ensures { result ≡ bytes_of bits.now }
{
    let mut bytes = [0; 8];
    for i in 0..8 {
        bytes[i] = number(&bits[8 * i..8 * i + 8]);
    }
    bytes
}
