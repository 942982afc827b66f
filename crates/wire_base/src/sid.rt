//! Security identifiers.

ghost use Rattle.std.specs.Prelude.{◌≡◌, ◌<◌, ◌≤◌, ◌^◌, ◌∷◌, ◌↔◌, length, false, All, IfNone, IfOk, IfSome, IsErrOf, Ok, option_map};
ghost use Rattle.std.specs.List.{position, slice_split};
ghost use Rattle.wire_base.specs.Memory.{UpToMemory};
ghost use Rattle.wire_base.specs.Decimal.{decimal_of};
ghost use Rattle.wire_base.specs.Sid.{SidParts, authority_of, IsSid, IsSidText, is_dash, number_below, numbers_of, parts_of, sid_of};

use crate::decimal::read_decimal;
use crate::list::Numbers;
use crate::memory::NoMemory;
use std::alloc::Global;
use std::marker::Model;
use thiserror::Error;

/// Why a text is no security identifier.
#[derive(Clone, Copy, Debug, PartialEq, Eq, Error)]
pub enum SidRefused {
    /// The text has another form.
    #[error("no security identifier")]
    NotSid,
    /// No memory was found.
    #[error("no memory")]
    Memory,
}

impl From<NoMemory> for SidRefused {
    ghost use Rattle.std.specs.Prelude.{◌≡◌};
    ghost use Rattle.wire_base.specs.declared.sid.SidRefused.TheVariants.{Memory};

    ghost from_gives = { λ _ e. e ≡ Memory };

    fn from(_error: NoMemory) -> SidRefused {
        SidRefused::Memory
    }
}

/// A security identifier of revision 1, seen as its authority of 48 bits and its 1 to 15 numbers of 32 bits (MS-DTYP
/// 2.4.2).
#[derive(Debug, Drop)]
pub struct Sid {
    authority: u64,
    numbers: Numbers,
}

impl Model for Sid {
    ghost use Rattle.std.specs.Prelude.{length, IsTrue};
    ghost use Rattle.wire_base.specs.Sid.{SidParts, is_sid};

    ghost Value = { SidParts };

    ghost view = { λ s. record { authority = s.authority; numbers = s.numbers } };

    ghost invariant = { λ s. IsTrue (is_sid s.authority (length s.numbers)) };
}

impl Sid {
    /// The identifier that a text writes: `S-1-`, then the authority and the numbers, joined by `-`, in decimal without
    /// leading zeros (this project's own choice of MS-DTYP 2.4.2.1). NotSid exactly where the text has another form;
    /// that it begins with `S-1-` and an authority is judged before memory is looked for.
    #[tactic(auto, unfolding(crate::specs::Sid::sid_of))]
    pub fn read(alloc: Global, text: &[u8]) -> Result<Sid, SidRefused>
        ensures exact { UpToMemory SidRefused.Memory result (sid_of text.now) }
        ensures found { IfOk result (λ sid. IsSidText text.now sid) }
        ensures only { (sid : SidParts) → IsSidText text.now sid
            → UpToMemory SidRefused.Memory result (Ok sid) }
        ensures judged { IfNone (authority_of text.now) (IsErrOf result SidRefused.NotSid) }
        ensures not_sid { IsErrOf result SidRefused.NotSid
            → (sid : SidParts) → IsSidText text.now sid → ⊥ }
    {
        read_text(alloc, text)
    }

    /// The identifier of this authority and these numbers.
    pub fn new(alloc: Global, authority: u64, numbers: &[u32]) -> Result<Sid, NoMemory>
        requires authority { authority < 2 ^ 48 }
        requires one { 1 ≤ length numbers.now }
        requires at_most { length numbers.now ≤ 15 }
        ensures { IfOk result (λ sid.
            sid ≡ record { authority = authority; numbers = numbers.now }) }
    {
        Ok(Sid {
            authority,
            numbers: Numbers::copy(alloc, numbers)?,
        })
    }

    /// The authority. It takes no memory.
    pub fn authority(&self) -> u64
        ensures value { result ≡ self.now.authority }
        ensures form { IsSid self.now }
    {
        self.authority
    }

    /// The numbers, in order. It takes no memory.
    pub fn numbers(&self) -> &[u32]
        ensures value { result.now ≡ self.now.numbers }
        ensures form { IsSid self.now }
    {
        self.numbers.items()
    }

    /// An equal identifier.
    pub fn copy(&self, alloc: Global) -> Result<Sid, NoMemory>
        ensures { IfOk result (λ sid. sid ≡ self.now) }
    {
        Ok(Sid {
            authority: self.authority,
            numbers: Numbers::copy(alloc, self.numbers.items())?,
        })
    }
}

/// The identifier, by the parts of its text.
#[tactic(auto, unfolding(crate::specs::Sid::sid_of, crate::specs::Sid::authority_of))]
fn read_text(alloc: Global, text: &[u8]) -> Result<Sid, SidRefused>
    ensures exact { UpToMemory SidRefused.Memory result (sid_of text.now) }
    ensures judged { IfNone (authority_of text.now) (IsErrOf result SidRefused.NotSid) }
{
    let Some(parts) = text.strip_prefix(b"S-1-") else {
        return Err(SidRefused::NotSid);
    };
    let (first, rest) = first_part(parts);
    let Some(authority) = number_below(first, 1 << 48) else {
        return Err(SidRefused::NotSid);
    };
    let numbers = read_numbers(alloc, rest)?;
    if numbers.len() == 0 {
        return Err(SidRefused::NotSid);
    }
    Ok(Sid { authority, numbers })
}

/// The numbers of the parts of a rest, at most 15.
#[tactic(auto, using(crate::proofs::SidLaws::counting))]
fn read_numbers(alloc: Global, text: Option<&[u8]>) -> Result<Numbers, SidRefused>
    ensures exact { UpToMemory SidRefused.Memory result
        (numbers_of 15 (parts_of (option_map (λ t. t.now) text.entry))) }
    ensures at_most { IfOk result (λ numbers. length numbers ≤ 15) }
{
    let mut numbers = Numbers::new(alloc);
    let mut rest = text;
    while let Some(parts) = rest {
        let (part, after) = first_part(parts);
        if numbers.len() == 15 {
            return Err(SidRefused::NotSid);
        }
        let Some(number) = number_below(part, 1 << 32) else {
            return Err(SidRefused::NotSid);
        };
        numbers.push(number as u32)?;
        rest = after;
    }
    Ok(numbers)
}

/// The text up to the first '-', and what follows it; no rest where there is none.
#[tactic(auto, using(crate::proofs::SidLaws::splitting))]
fn first_part(text: &[u8]) -> (&[u8], Option<&[u8]>)
    ensures parts { slice_split is_dash text.now
        ≡ result.0.now ∷ parts_of (option_map (λ t. t.now) result.1) }
    ensures shorter { IfSome result.1 (λ rest. length rest.now < length text.now) }
{
    match dash_at(text) {
        Some(at) => (&text[..at], Some(&text[at + 1..])),
        None => (text, None),
    }
}

/// The place of the first '-'.
fn dash_at(text: &[u8]) -> Option<usize>
    ensures value { result ≡ position is_dash text.now }
    ensures none { IfNone result (All (λ byte. is_dash byte ≡ false) text.now) }
{
    text.iter().position(|byte| *byte == b'-')
}

/// The number that the text writes, where it is below the limit.
fn number_below(text: &[u8], limit: u64) -> Option<u64>
    ensures { result ≡ number_below limit (decimal_of text.now) }
{
    match read_decimal(text) {
        Some(number) if number < limit => Some(number),
        _ => None,
    }
}
