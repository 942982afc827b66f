//! Target information: lists of AV_PAIRs (MS-NLMP 2.2.2.1).

ghost use Rattle.std.specs.Prelude.{◌≡◌, ◌+◌, ◌<◌, ◌^◌, ◌++◌, ℕ, List as list, length, Ok, Err, IfOk, IfErr, OnOk, MatchOption, Some, None};
ghost use Rattle.std.specs.List.{flat_map};
ghost use Rattle.wire_base.specs.Memory.{UpToMemory};
ghost use Rattle.ntlm_messages.specs.Fields.{Shows};
ghost use Rattle.ntlm_messages.specs.declared.pairs.PairsRefused.{PairsRefused};
ghost use Rattle.ntlm_messages.specs.Pairs.{IsPairs, IsPairsRefusal, ArePairs, pair_of, pairs_of, pair_bytes, pair_value_of, timestamp_pair_of, verdict_on_pairs, written_pairs, may_have_length};

use crate::fields::short_at;
use std::alloc::Global;
use thiserror::Error;
use wire_base::{Blob, List, NoMemory, u64_at};

/// Pairs of an id and a value in their order, without the end, seen as the list of them.
pub type Pairs = List<(u16, Blob)>;

/// Why bytes weren't read as pairs: what the walk from the front meets first, or want of memory.
#[derive(Clone, Copy, Debug, PartialEq, Eq, Error)]
pub enum PairsRefused {
    /// No byte is left, and no end stood before.
    #[error("the list of pairs has no end")]
    NoEnd,
    /// The head or the value of the pair that begins at this place of the list is cut.
    #[error("the pair at {0} is cut")]
    CutPair(usize),
    /// The end has a value, the flags (id 6) aren't 4 bytes, or the timestamp (id 7) isn't 8 bytes.
    #[error("the value of the pair {0} has a wrong length")]
    BadLength(u16),
    /// No memory was found.
    #[error("no memory")]
    Memory,
}

impl From<NoMemory> for PairsRefused {
    ghost use Rattle.ntlm_messages.specs.declared.pairs.PairsRefused.TheVariants.{Memory};

    ghost from_gives = { λ _ e. e ≡ Memory };

    fn from(_error: NoMemory) -> PairsRefused {
        PairsRefused::Memory
    }
}

/// Whether a value of that length may stand behind the id.
fn may_have_length(id: u16, len: usize) -> bool
    ensures { result ≡ may_have_length id len }
{
    match id {
        0 => len == 0,
        6 => len == 4,
        7 => len == 8,
        _ => true,
    }
}

/// The pair at the front: its id, its value and the bytes behind it.
#[tactic(auto, unfolding(crate::specs::Pairs::pair_of))]
fn pair_at(place: usize, bytes: &[u8]) -> Result<(u16, &[u8], &[u8]), PairsRefused>
    ensures value { Shows (λ pair. (pair.0, pair.1.now, pair.2.now)) result
        (pair_of place bytes.now) }
    ensures shorter { IfOk result (λ pair.
        length pair.2.now + 4 + length pair.1.now ≡ length bytes.now) }
{
    if bytes.is_empty() {
        return Err(PairsRefused::NoEnd);
    }
    let id = short_at(bytes, 0);
    let len = usize::from(short_at(bytes, 2));
    if bytes.len() < 4 + len {
        return Err(PairsRefused::CutPair(place));
    }
    if !may_have_length(id, len) {
        return Err(PairsRefused::BadLength(id));
    }
    Ok((id, &bytes[4..4 + len], &bytes[4 + len..]))
}

/// Walks the pairs before the end, and refuses the first that isn't taken.
fn check_pairs(bytes: &[u8]) -> Result<(), PairsRefused>
    ensures { result ≡ verdict_on_pairs bytes.now }
{
    let mut rest = bytes;
    loop {
        let (id, _, after) = pair_at(bytes.len() - rest.len(), rest)?;
        if id == 0 {
            return Ok(());
        }
        rest = after;
    }
}

/// Copies the pairs before the end.
fn copy_pairs(alloc: Global, bytes: &[u8]) -> Result<Pairs, PairsRefused>
    ensures { UpToMemory PairsRefused.Memory result (pairs_of bytes.now) }
{
    let mut pairs = List::new(alloc);
    let mut rest = bytes;
    loop {
        let (id, value, after) = pair_at(bytes.len() - rest.len(), rest)?;
        if id == 0 {
            return Ok(pairs);
        }
        pairs.push((id, Blob::copy(alloc, value)?))?;
        rest = after;
    }
}

/// The pairs or the first refusal; what that says in the grammar's terms follows in `read_pairs`.
#[tactic(auto, using(crate::proofs::PairsLaws::judging))]
fn checked_pairs(alloc: Global, bytes: &[u8]) -> Result<Pairs, PairsRefused>
    ensures exact { UpToMemory PairsRefused.Memory result (pairs_of bytes.now) }
    ensures refusals { (refused : PairsRefused) →
        pairs_of bytes.now ≡ Err refused → result ≡ Err refused }
{
    check_pairs(bytes)?;
    copy_pairs(alloc, bytes)
}

/// Reads pairs from the front to the end pair. What follows the end is passed over.
///
/// At the first pair that isn't taken: `NoEnd` where no byte is left; `CutPair` where its head or value is cut;
/// `BadLength` where its value has a length that its id doesn't allow. A refusal comes before memory is looked for;
/// `Memory` where no memory was found.
pub fn read_pairs(alloc: Global, bytes: &[u8]) -> Result<Pairs, PairsRefused>
    // The pairs or the first refusal.
    ensures exact { UpToMemory PairsRefused.Memory result (pairs_of bytes.now) }
    // A refusal comes before memory is looked for.
    ensures refusals { (refused : PairsRefused) →
        pairs_of bytes.now ≡ Err refused → result ≡ Err refused }
    // What is read is in the grammar.
    ensures found { IfOk result (λ pairs. IsPairs bytes.now pairs) }
    // Which refusal it is.
    ensures refused { IfErr result (λ refused. IsPairsRefusal bytes.now refused) }
    // What is read can be written.
    ensures writable { IfOk result (λ pairs. ArePairs pairs) }
    // What is in the grammar is read, unless memory runs out.
    ensures only { (pairs : list (ℕ × list ℕ)) → IsPairs bytes.now pairs →
        UpToMemory PairsRefused.Memory result (Ok pairs) }
{
    checked_pairs(alloc, bytes)
}

/// Appends a pair.
fn put_pair(out: &mut Vec<u8>, id: u16, value: &[u8]) -> Result<(), NoMemory>
    requires { length value.now < 2 ^ 16 }
    ensures { OnOk result (out.new.items ≡ out.old.items ++ pair_bytes (id, value.now)) }
{
    out.extend_from_slice(&id.to_le_bytes())?;
    out.extend_from_slice(&(value.len() as u16).to_le_bytes())?;
    out.extend_from_slice(value)?;
    Ok(())
}

/// The bytes of pairs, without an end.
fn pair_list(alloc: Global, pairs: &[(u16, Blob)]) -> Result<Vec<u8>, NoMemory>
    requires { ArePairs pairs.now }
    ensures { IfOk result (λ out. out.items ≡ flat_map pair_bytes pairs.now) }
{
    let mut out = Vec::new(alloc);
    for (id, value) in pairs {
        put_pair(&mut out, *id, value.bytes())?;
    }
    Ok(out)
}

/// Writes pairs and the end pair.
///
/// The condition: no pair of id 0, values of at most 65,535 bytes, flags (id 6) of 4 bytes and a timestamp (id 7) of 8
/// bytes.
#[tactic(auto, unfolding(crate::specs::Pairs::written_pairs))]
pub fn write_pairs(alloc: Global, pairs: &Pairs) -> Result<Blob, NoMemory>
    requires { ArePairs pairs.now }
    ensures written { IfOk result (λ bytes. bytes ≡ written_pairs pairs.now) }
    // What is written is read back.
    ensures read_back { IfOk result (λ bytes. pairs_of bytes ≡ Ok pairs.now) }
{
    let mut out = pair_list(alloc, pairs.items())?;
    put_pair(&mut out, 0, &[])?;
    Ok(Blob::from_vec(out))
}

/// The value of the first pair of an id. None exactly where no pair has it. It takes no memory.
pub fn pair_value(pairs: &Pairs, id: u16) -> Option<&[u8]>
    ensures { MatchOption result (pair_value_of id pairs.now ≡ None)
        (λ value. pair_value_of id pairs.now ≡ Some value.now) }
{
    let mut rest = pairs.items();
    while let [(other, value), after @ ..] = rest {
        if id == *other {
            return Some(value.bytes());
        }
        rest = after;
    }
    None
}

/// The time of the pair of id 7, in 100 nanoseconds since 1601-01-01 00:00 UTC. None exactly where there is none. It
/// takes no memory.
#[tactic(auto, using(crate::proofs::PairsLaws::timestamp_read))]
pub fn timestamp(pairs: &Pairs) -> Option<u64>
    requires { ArePairs pairs.now }
    ensures { result ≡ timestamp_pair_of pairs.now }
{
    u64_at(pair_value(pairs, 7)?, 0)
}
