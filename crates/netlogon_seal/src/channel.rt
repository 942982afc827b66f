//! An end of a channel as its owner sees it.

ghost use Rattle.std.specs.Prelude.{◌≡◌, ◌+◌, ◌-◌, ◌≤◌, ◌<◌, ◌^◌, ◌++◌, ◌↔◌, length, take, drop, replicate, Ok, OnOk};
ghost use Rattle.netlogon_seal.specs.Signatures.{combine_range};
ghost use Rattle.netlogon_seal.specs.Runs.{next_sealed, sealed_again};
ghost use Rattle.netlogon_seal.specs.Channels.{nl_state_of, awaited_sequence, seal_of, expect, plain_of, verdict_of, unit_left, open_of};

use crate::keys::{checksum, combine_eight, sealing_key, sequence_bytes, sequence_key};
use crate::refusal::NlRefused;
use crate::signature::{
    SIGNATURE_LENGTH, checksum_in, confounder_in, has_algorithms, number_in, write_signature,
};
use rc4_stream::Rc4;
use std::marker::Model;

/// One end of a secure channel that signs and seals (MS-NRPC 3.3.4.2). Clauses see the channel's key, whether this end
/// is the requester, and the numbers of units sent and opened.
#[derive(Drop)]
pub struct NlSeal {
    key: [u8; 16],
    requester: bool,
    sent: u32,
    received: u32,
}

impl Model for NlSeal {
    ghost use Rattle.netlogon_seal.specs.Channels.{NlState};

    ghost Value = { NlState };

    ghost view = { λ a.
        record { key = a.key; requester = a.requester; sent = a.sent; received = a.received } };
}

impl NlSeal {
    /// An end of a channel of this session key before its first unit.
    pub fn new(key: [u8; 16], requester: bool) -> NlSeal
        ensures { result ≡ nl_state_of key requester }
    {
        NlSeal {
            key,
            requester,
            sent: 0,
            received: 0,
        }
    }

    /// Seals the bytes of a unit from place `from` to before place `to` (MS-NRPC 3.3.4.2.1 and 3.3.4.2.3). The
    /// signature is that of all bytes before the last 32, and is written into those.
    ///
    /// `Spent` exactly where the number of units sent stands at 2^32 - 1: the unit and the numbers are as they were.
    pub fn seal(
        &mut self,
        unit: &mut [u8],
        from: usize,
        to: usize,
        confounder: [u8; 8],
    ) -> Result<(), NlRefused>
        requires range { from ≤ to }
        requires within { to + 32 ≤ length unit.old }
        ensures answer { result ≡ (seal_of self.old unit.old from to confounder).answer }
        ensures unit { unit.new ≡ (seal_of self.old unit.old from to confounder).unit }
        ensures state { self.new ≡ (seal_of self.old unit.old from to confounder).state }
    {
        if self.sent == u32::MAX {
            return Err(NlRefused::Spent);
        }
        let end = unit.len() - SIGNATURE_LENGTH;
        let (front, signature) = unit.split_at_mut(end);
        self.seal_front(front, signature, from, to, confounder);
        self.sent += 1;
        Ok(())
    }

    /// Seals a unit's range under the next number, and writes its signature.
    fn seal_front(
        &self,
        front: &mut [u8],
        signature: &mut [u8],
        from: usize,
        to: usize,
        confounder: [u8; 8],
    )
        requires range { from ≤ to }
        requires within { to ≤ length front.old }
        requires size { length signature.old ≡ 32 }
        ensures whole { front.new ++ signature.new
            ≡ next_sealed self.now front.old from to confounder }
    {
        let sequence = sequence_bytes(self.sent, self.requester);
        let checksum = checksum(&self.key, &confounder, front);
        let key = sealing_key(&self.key, &sequence);
        combine(&key, front, from, to);
        let number = combine_eight(&sequence_key(&self.key, &checksum), sequence);
        write_signature(
            signature,
            &number,
            &checksum,
            &combine_eight(&key, confounder),
        );
    }

    /// Opens the bytes of a unit from place `from` to before place `to` (MS-NRPC 3.3.4.2.2 and 3.3.4.2.4). The
    /// signature stands in the last 32 bytes of the unit, and stays.
    ///
    /// Refuses with the first that stands: `Spent`, where the number of units opened stands at 2^32 - 1;
    /// `BadAlgorithm`, where the signature's first 8 bytes differ; `BadSequence`, where its number isn't the next that
    /// the other end sends; `BadChecksum`. After `BadChecksum` the range holds zeros. After every other refusal the
    /// unit is as it was. Every refusal leaves the numbers.
    pub fn open(&mut self, unit: &mut [u8], from: usize, to: usize) -> Result<(), NlRefused>
        requires range { from ≤ to }
        requires within { to + 32 ≤ length unit.old }
        ensures answer { result ≡ (open_of self.old unit.old from to).answer }
        ensures unit { unit.new ≡ (open_of self.old unit.old from to).unit }
        ensures state { self.new ≡ (open_of self.old unit.old from to).state }
        // A unit is taken exactly where it is what the other end seals, under the next number, of the bytes that are
        // found in it.
        ensures accepts { self.old.received < 2 ^ 32 - 1
            → ((result ≡ Ok tt) ↔ (unit.old ≡ sealed_again self.old unit.old from to)) }
    {
        let end = unit.len() - SIGNATURE_LENGTH;
        let (front, signature) = unit.split_at_mut(end);
        self.open_front(front, from, to, signature)?;
        self.received += 1;
        Ok(())
    }

    /// Opens a unit's range as that of the next unit, and compares it with the signature.
    fn open_front(
        &self,
        front: &mut [u8],
        from: usize,
        to: usize,
        signature: &[u8],
    ) -> Result<(), NlRefused>
        requires range { from ≤ to }
        requires within { to ≤ length front.old }
        requires size { length signature.now ≡ 32 }
        ensures answer { result
            ≡ verdict_of self.now (plain_of self.now front.old from to) signature.now }
        ensures front { front.new
            ≡ unit_left result front.old (plain_of self.now front.old from to) from to }
    {
        self.expects(signature)?;
        let key = sealing_key(&self.key, &self.awaited_sequence());
        let confounder = confounder_in(&key, signature);
        combine(&key, front, from, to);
        if checksum_in(signature) != checksum(&self.key, &confounder, front) {
            clear(front, from, to);
            return Err(NlRefused::BadChecksum);
        }
        Ok(())
    }

    /// The bytes of the number that the next unit has.
    fn awaited_sequence(&self) -> [u8; 8]
        ensures { result ≡ awaited_sequence self.now }
    {
        sequence_bytes(self.received, !self.requester)
    }

    /// Refuses, in this order, where the numbers are used up, where a signature names other algorithms, and where it
    /// hasn't the next number.
    fn expects(&self, signature: &[u8]) -> Result<(), NlRefused>
        requires { length signature.now ≡ 32 }
        ensures answer { result ≡ expect self.now signature.now }
        ensures room { OnOk result (self.now.received < 2 ^ 32 - 1) }
    {
        if self.received == u32::MAX {
            return Err(NlRefused::Spent);
        }
        if !has_algorithms(signature) {
            return Err(NlRefused::BadAlgorithm);
        }
        if number_in(&self.key, signature) != self.awaited_sequence() {
            return Err(NlRefused::BadSequence {
                wanted: self.received,
            });
        }
        Ok(())
    }
}

/// Combines a range with the first bytes of a key's stream.
fn combine(key: &[u8; 16], unit: &mut [u8], from: usize, to: usize)
    requires range { from ≤ to }
    requires within { to ≤ length unit.old }
    ensures { unit.new ≡ combine_range key.now unit.old from to }
{
    Rc4::new(key).apply(&mut unit[from..to]);
}

/// Leaves zeros in a range of a unit.
fn clear(unit: &mut [u8], from: usize, to: usize)
    requires range { from ≤ to }
    requires within { to ≤ length unit.old }
    ensures { unit.new ≡ take from unit.old ++ replicate (to - from) 0 ++ drop to unit.old }
{
    unit[from..to].fill(0);
}
