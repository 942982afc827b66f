//! The compression of one block of MD4 (RFC 1320 3.4).

ghost use Rattle.std.specs.Prelude.{◌≡◌, ◌%◌, length};
ghost use Rattle.digest_parts.specs.Md4.{f_of, g_of, h_of, words_of, step, steps, first_rotations, second_rotations, third_rotations, first_round, second_round, third_round, after_block, after_blocks, rest_of};

/// The constant of the second round: the square root of 2 (RFC 1320 3.4).
const ROOT_OF_TWO: u32 = 0x5a82_7999;

/// The constant of the third round: the square root of 3 (RFC 1320 3.4).
const ROOT_OF_THREE: u32 = 0x6ed9_eba1;

fn f(x: u32, y: u32, z: u32) -> u32
    ensures { result ≡ f_of x y z }
{
    (x & y) | (!x & z)
}

// The two parts share no bit, so their sum is what `or` makes of them. A step can add the first part
// early: only `x` is the result of the step before.
fn g(x: u32, y: u32, z: u32) -> u32
    ensures { result ≡ g_of x y z }
{
    (y & z) + (x & (y ^ z))
}

fn h(x: u32, y: u32, z: u32) -> u32
    ensures { result ≡ h_of x y z }
{
    x ^ y ^ z
}

// In each step the function of the registers is added last, since it waits for the step before.

#[inline(always)]
#[tactic(auto, unfolding(crate::specs::Md4::step))]
fn first_step(registers: [u32; 4], word: u32, rotation: u32) -> [u32; 4]
    ensures { result ≡ step f_of 0 word rotation registers }
{
    let [a, b, c, d] = registers;
    let sum = a.wrapping_add(word).wrapping_add(f(b, c, d));
    [d, sum.rotate_left(rotation), b, c]
}

#[inline(always)]
#[tactic(auto, unfolding(crate::specs::Md4::step))]
fn second_step(registers: [u32; 4], word: u32, rotation: u32) -> [u32; 4]
    ensures { result ≡ step g_of ROOT_OF_TWO word rotation registers }
{
    let [a, b, c, d] = registers;
    let sum = a
        .wrapping_add(word)
        .wrapping_add(ROOT_OF_TWO)
        .wrapping_add(g(b, c, d));
    [d, sum.rotate_left(rotation), b, c]
}

#[inline(always)]
#[tactic(auto, unfolding(crate::specs::Md4::step))]
fn third_step(registers: [u32; 4], word: u32, rotation: u32) -> [u32; 4]
    ensures { result ≡ step h_of ROOT_OF_THREE word rotation registers }
{
    let [a, b, c, d] = registers;
    let sum = a
        .wrapping_add(word)
        .wrapping_add(ROOT_OF_THREE)
        .wrapping_add(h(b, c, d));
    [d, sum.rotate_left(rotation), b, c]
}

#[inline(always)]
#[tactic(auto, unfolding(crate::specs::Md4::steps))]
fn first_four(registers: [u32; 4], words: [u32; 4]) -> [u32; 4]
    ensures { result ≡ steps f_of 0 words first_rotations registers }
{
    let registers = first_step(registers, words[0], 3);
    let registers = first_step(registers, words[1], 7);
    let registers = first_step(registers, words[2], 11);
    first_step(registers, words[3], 19)
}

#[inline(always)]
#[tactic(auto, unfolding(crate::specs::Md4::steps))]
fn second_four(registers: [u32; 4], words: [u32; 4]) -> [u32; 4]
    ensures { result ≡ steps g_of ROOT_OF_TWO words second_rotations registers }
{
    let registers = second_step(registers, words[0], 3);
    let registers = second_step(registers, words[1], 5);
    let registers = second_step(registers, words[2], 9);
    second_step(registers, words[3], 13)
}

#[inline(always)]
#[tactic(auto, unfolding(crate::specs::Md4::steps))]
fn third_four(registers: [u32; 4], words: [u32; 4]) -> [u32; 4]
    ensures { result ≡ steps h_of ROOT_OF_THREE words third_rotations registers }
{
    let registers = third_step(registers, words[0], 3);
    let registers = third_step(registers, words[1], 9);
    let registers = third_step(registers, words[2], 11);
    third_step(registers, words[3], 15)
}

#[inline(always)]
#[tactic(auto, unfolding(crate::specs::Md4::steps, crate::specs::Md4::first_round))]
fn first_round(registers: [u32; 4], x: &[u32; 16]) -> [u32; 4]
    ensures { result ≡ first_round x.now registers }
{
    let registers = first_four(registers, [x[0], x[1], x[2], x[3]]);
    let registers = first_four(registers, [x[4], x[5], x[6], x[7]]);
    let registers = first_four(registers, [x[8], x[9], x[10], x[11]]);
    first_four(registers, [x[12], x[13], x[14], x[15]])
}

#[inline(always)]
#[tactic(auto, unfolding(crate::specs::Md4::steps, crate::specs::Md4::second_round))]
fn second_round(registers: [u32; 4], x: &[u32; 16]) -> [u32; 4]
    ensures { result ≡ second_round x.now registers }
{
    let registers = second_four(registers, [x[0], x[4], x[8], x[12]]);
    let registers = second_four(registers, [x[1], x[5], x[9], x[13]]);
    let registers = second_four(registers, [x[2], x[6], x[10], x[14]]);
    second_four(registers, [x[3], x[7], x[11], x[15]])
}

#[inline(always)]
#[tactic(auto, unfolding(crate::specs::Md4::steps, crate::specs::Md4::third_round))]
fn third_round(registers: [u32; 4], x: &[u32; 16]) -> [u32; 4]
    ensures { result ≡ third_round x.now registers }
{
    let registers = third_four(registers, [x[0], x[8], x[4], x[12]]);
    let registers = third_four(registers, [x[2], x[10], x[6], x[14]]);
    let registers = third_four(registers, [x[1], x[9], x[5], x[13]]);
    third_four(registers, [x[3], x[11], x[7], x[15]])
}

/// The words of a block, each of four bytes, low byte first.
#[inline(always)]
fn words(block: &[u8; 64]) -> [u32; 16]
    ensures { result ≡ words_of block.now }
{
    let mut words = [0u32; 16];
    for i in 0..16 {
        let at = 4 * i;
        words[i] = u32::from_le_bytes([block[at], block[at + 1], block[at + 2], block[at + 3]]);
    }
    words
}

/// Takes one block of 64 bytes into the registers.
#[tactic(auto, unfolding(crate::specs::Md4::added, crate::specs::Md4::after_block))]
pub fn take_block(registers: &mut [u32; 4], block: &[u8; 64])
    ensures { registers.new ≡ after_block registers.old block.now }
{
    let x = words(block);
    let [a, b, c, d] = third_round(second_round(first_round(*registers, &x), &x), &x);
    let [old_a, old_b, old_c, old_d] = *registers;
    *registers = [
        a.wrapping_add(old_a),
        b.wrapping_add(old_b),
        c.wrapping_add(old_c),
        d.wrapping_add(old_d),
    ];
}

/// Takes the blocks into which `bytes` are cut into the registers, and gives the bytes after them.
#[tactic(auto, unfolding(crate::specs::Md4::blocks_of, crate::specs::Md4::rest_of, crate::specs::Md4::after_blocks))]
pub fn take_blocks<'a>(registers: &mut [u32; 4], bytes: &'a [u8]) -> &'a [u8]
    ensures registers { registers.new ≡ after_blocks registers.old bytes.now }
    ensures rest { result.now ≡ rest_of bytes.now }
    ensures rest_len { length result.now ≡ length bytes.now % 64 }
{
    let (blocks, rest) = bytes.as_chunks::<64>();
    for block in blocks {
        take_block(registers, block);
    }
    rest
}
