//! What one end of a channel seals, the other opens, and nothing else.

ghost use Rattle.std.specs.Prelude.{◌≡◌, ℕ, ◌+◌, ◌-◌, ◌≤◌, ◌<◌, ◌^◌, ◌++◌, ◌↔◌, List, Bool, true, false, not, length, take, drop, map, Ok, Err};
ghost use Rattle.std.specs.List.{AllByRecursion};
ghost use Rattle.netlogon_seal.specs.Signatures.{combine_range, sealed_unit, signature_of};
ghost use Rattle.netlogon_seal.specs.Channels.{NlState, nl_state_of, open_of};
ghost use Rattle.netlogon_seal.specs.Runs.{Follows, Paired, OpensAgain, PlainUnit, HasRange, Opens, send_all, open_all, whole_opening, sealed_again};
ghost use Rattle.netlogon_seal.specs.Conversations.{Turn, HasTurnRange, all_turns, first_ends, Carries};

use crate::refusal::NlRefused;

/// What one end seals the other opens to the same bytes, in order, in both directions.
///
/// The two ends have one session key. One seals units, fewer than 2^32, and each has its range before its last 32
/// bytes. The other opens them one after another: each is taken, and opened to what it was. This holds from the first
/// unit on, and from any two ends of one key on, where the one has opened as many units as the other sent. What goes
/// the other way changes nothing of it.
pub fn what_is_sealed_opens()
    ensures from_requester { (key : List ℕ) (units : List PlainUnit)
        → AllByRecursion HasRange units → length units < 2 ^ 32
        → open_all (nl_state_of key false) (send_all (nl_state_of key true) units)
        ≡ map whole_opening units }
    ensures to_requester { (key : List ℕ) (units : List PlainUnit)
        → AllByRecursion HasRange units → length units < 2 ^ 32
        → open_all (nl_state_of key true) (send_all (nl_state_of key false) units)
        ≡ map whole_opening units }
    ensures from_any { (sender receiver : NlState) (units : List PlainUnit)
        → Follows sender receiver
        → AllByRecursion HasRange units → sender.sent + length units < 2 ^ 32
        → open_all receiver (send_all sender units) ≡ map whole_opening units }
{}

/// A channel carries units in both directions, in order, whichever end seals or opens next.
///
/// The two ends of a channel of one session key seal units and open what is under way to them, in any order. In each
/// direction what was opened is then a front of what was sealed, and each unit was opened to what it was. The others
/// are under way still.
pub fn a_channel_carries_units_in_order()
    ensures { (key : List ℕ) (turns : List Turn) → AllByRecursion HasTurnRange turns
        → Carries (all_turns (first_ends key) turns).from_requester
        × Carries (all_turns (first_ends key) turns).from_responder }
{}

/// What one end sends the other takes, and both are in step again.
///
/// Two ends of one session key, one of them the requester, are in step where each has opened as many units as the other
/// sent. They are so before their first unit. While its number is below 2^32 - 1, a unit that one of them then seals is
/// opened by the other to the same bytes. Both are in step again. Sealing changes the bytes of the range and the last
/// 32 alone.
pub fn what_is_sent_is_taken()
    ensures first { (key : List ℕ) (requester : Bool)
        → Paired (nl_state_of key requester) (nl_state_of key (not requester)) }
    ensures either { (one other : NlState) → Paired one other → Paired other one }
    ensures sealed { (one other : NlState) (p : PlainUnit)
        → Paired one other → HasRange p → one.sent < 2 ^ 32 - 1
        → OpensAgain one other p }
    ensures range { (key unit : List ℕ) (from to : ℕ) → from ≤ to → to ≤ length unit
        → (range : List ℕ) × (length range ≡ to - from)
        × (combine_range key unit from to ≡ take from unit ++ range ++ drop to unit) }
    ensures signature { (key : List ℕ) (number : ℕ) (requester : Bool) (plain confounder : List ℕ)
        → length confounder ≡ 8
        → length (signature_of key number requester plain confounder) ≡ 32 }
{}

/// A unit that is taken is one that the other end's key sealed as its next, and no unit is taken twice.
///
/// A unit is taken exactly where it is what the other end seals, under the next number, of the bytes that are found in
/// it. A unit that was sealed under the same key with another number, or by this end itself, is refused by its number.
/// So a unit is refused that comes late, early, twice or back.
pub fn what_is_taken_was_sealed()
    ensures exactly { (s : NlState) (unit : List ℕ) (from to : ℕ)
        → from ≤ to → to + 32 ≤ length unit → s.received < 2 ^ 32 - 1
        → ((open_of s unit from to).answer ≡ Ok tt) ↔ (unit ≡ sealed_again s unit from to) }
    ensures opens { (s : NlState) (plain confounder : List ℕ) (from to : ℕ)
        → from ≤ to → to ≤ length plain → length confounder ≡ 8 → s.received < 2 ^ 32 - 1
        → Opens s plain confounder from to }
    ensures other_number { (s : NlState) (number : ℕ) (requester : Bool) (plain confounder : List ℕ)
        (sealed_from sealed_to from to : ℕ)
        → length confounder ≡ 8 → number < 2 ^ 32 → s.received < 2 ^ 32 - 1
        → ¬ ((number ≡ s.received) × (requester ≡ not s.requester))
        → (open_of s (sealed_unit s.key number requester plain sealed_from sealed_to confounder)
        from to).answer
        ≡ Err (NlRefused.BadSequence s.received) }
    ensures repeated { (s : NlState) (unit : List ℕ) (from to : ℕ)
        → from ≤ to → to + 32 ≤ length unit → s.received + 1 < 2 ^ 32 - 1
        → (open_of s unit from to).answer ≡ Ok tt
        → (open_of (open_of s unit from to).state unit from to).answer
        ≡ Err (NlRefused.BadSequence (s.received + 1)) }
{}
