//! The seed of a sequence.

ghost use Rattle.std.specs.Prelude.{◌≡◌};
ghost use Rattle.authenticators.specs.Sequences.{add_to};

/// The seed with a number added to its first four bytes, low byte first, modulo 2^32. The last four stay.
#[tactic(auto, unfolding(crate::specs::Sequences::add_to))]
pub(crate) fn add_to(seed: &[u8; 8], number: u32) -> [u8; 8]
    ensures { result ≡ add_to seed.now number }
{
    let mut low = [0; 4];
    low.copy_from_slice(&seed[..4]);
    let sum = u32::from_le_bytes(low).wrapping_add(number);
    let mut moved = *seed;
    moved[..4].copy_from_slice(&sum.to_le_bytes());
    moved
}
