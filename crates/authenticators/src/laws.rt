//! Laws of authenticators, seeds and channels, over their definitions (MS-NRPC 3.1.4.5). Each function does nothing,
//! and its clauses are the law.

ghost use Rattle.std.specs.Prelude.{◌≡◌, ◌%◌, ◌^◌, ◌↔◌, ◌∷◌, ℕ, true, List, Ok, Some};
ghost use Rattle.wire_base.specs.declared.authenticator.Authenticator.{Authenticator};
ghost use Rattle.channel_keys.specs.Des.{IsBlock};
ghost use Rattle.authenticators.specs.Channels.{ChannelIdentity, SameChannel, same_channel, channel_key};
ghost use Rattle.authenticators.specs.Sequences.{SequenceState, InStep, Passes, authenticator_of, add_to, seed_after, moved_by, sequence_after, judge_of};

/// A seed of 8 bytes stays one as it moves, and timestamps move it by the sum of each plus one, modulo 2^32 in its
/// first four bytes.
pub fn timestamps_move_the_seed()
    ensures block { (seed : List ℕ) (n : ℕ) → IsBlock seed → IsBlock (add_to seed n) }
    ensures moves { (seed timestamps : List ℕ) → IsBlock seed
        → seed_after seed timestamps ≡ add_to seed (moved_by timestamps) }
{}

/// The law of replay: where an authenticator passed at a seed, and timestamps, its own first, were accepted from there
/// on, it passes again exactly where these timestamps, each plus one, sum to a multiple of 2^32.
pub fn when_an_authenticator_passes_again()
    ensures { (key seed : List ℕ) (given : Authenticator) (later : List ℕ) → IsBlock seed
        → Passes key seed given
        → Passes key (seed_after seed (given.timestamp ∷ later)) given
        ↔ (moved_by (given.timestamp ∷ later) % 2 ^ 32 ≡ 0) }
{}

/// An authenticator made at a seed passes at that seed, and under the same key at no other.
pub fn an_authenticator_passes_at_its_seed_alone()
    ensures { (key seed other : List ℕ) (timestamp : ℕ) → IsBlock seed → IsBlock other
        → Passes key other (authenticator_of key seed timestamp) ↔ seed ≡ other }
{}

/// What one end makes, the other end passes where both have one key and one seed: it answers with what the maker
/// awaits, and both have one seed again.
pub fn what_is_made_is_judged()
    ensures answer { (maker judge : SequenceState) (timestamp : ℕ) (awaited : List ℕ)
        → InStep maker judge → (sequence_after maker timestamp).awaited ≡ Some awaited
        → (judge_of judge (authenticator_of maker.key maker.seed timestamp)).answer ≡ Ok awaited }
    ensures seeds { (maker judge : SequenceState) (timestamp : ℕ) → InStep maker judge
        → InStep (sequence_after maker timestamp)
        (judge_of judge (authenticator_of maker.key maker.seed timestamp)).sequence }
{}

/// Channels that are one have one session key; the test of it finds exactly these.
pub fn one_channel_has_one_key()
    ensures key { (one other : ChannelIdentity) → SameChannel one other
        → channel_key one ≡ channel_key other }
    ensures test { (one other : ChannelIdentity) →
        (same_channel one other ≡ true) ↔ SameChannel one other }
{}
