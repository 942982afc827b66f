//! One direction of a session.

ghost use Rattle.std.specs.Prelude.{◌≡◌, ℕ, ◌+◌, ◌-◌, ◌^◌, ◌<◌, ◌≤◌, ◌==◌, List, ◌++◌, length, take, drop, replicate, slice_range, bytes_eq, Ok, Err, OnOk};
ghost use Rattle.std.specs.Bool.{OnFalse};
ghost use Rattle.std.specs.Int.{w32, to_le_bytes, from_le_bytes};
ghost use Rattle.ntlm_seal.specs.Directions.{Direction, direction_of, combine, checksum_in, checksum_of, sent_form_by, signature_of, checksum_bytes, next_of};
ghost use Rattle.ntlm_seal.specs.Sessions.{is_spent, expect, verdict_of, direction_left, unit_left};

use crate::keys::{sealing_key, signing_key};
use crate::refusal::SealRefused;
use crate::side::Side;
use digest_parts::Hmac;
use ntlm_flags::{NTLMSSP_NEGOTIATE_KEY_EXCH, has_flag};
use rc4_stream::Rc4;
use std::marker::Model;

/// A direction of a session: its keys, its key stream and the number of its next unit.
#[derive(Drop)]
pub struct OneWay {
    signing_key: [u8; 16],
    stream: Rc4,
    key_exchange: bool,
    number: u32,
}

impl Model for OneWay {
    ghost use Rattle.std.specs.Prelude.{◌+◌, ◌*◌, ◌≤◌};
    ghost use Rattle.ntlm_seal.specs.Directions.{Direction};

    ghost Value = { Direction };

    ghost view = { λ a. record { signing_key = a.signing_key; sealing_key = a.stream.key; key_exchange = a.key_exchange; number = a.number; used = a.stream.used } };

    // A unit takes at most 65,536 bytes of the key stream, and its checksum 8: so the bytes used stay below 2^63.
    ghost invariant = { λ a. a.stream.used ≤ (65536 + 8) * a.number };
}

impl OneWay {
    /// The direction in which a side sends, before its first unit.
    pub fn new(exported: &[u8; 16], flags: u32, side: Side) -> OneWay
        ensures { result ≡ direction_of exported.now flags side }
    {
        OneWay {
            signing_key: signing_key(exported, side),
            stream: Rc4::new(&sealing_key(exported, flags, side)),
            key_exchange: has_flag(flags, NTLMSSP_NEGOTIATE_KEY_EXCH),
            number: 0,
        }
    }

    /// Whether the number stands at the last, which no unit takes.
    pub fn is_spent(&self) -> bool
        ensures spent { result ≡ is_spent self.now }
        ensures room { OnFalse result (self.now.number < 2 ^ 32 - 1) }
    {
        self.number == u32::MAX
    }

    /// The signature of a unit that is signed alone.
    pub fn sign(&mut self, unit: &[u8]) -> [u8; 16]
        requires { self.old.number < 2 ^ 32 - 1 }
        ensures signature { result ≡ signature_of self.old unit.now 0 0 }
        ensures direction { self.new ≡ next_of self.old 0 0 }
    {
        let number = self.number;
        let checksum = checksum(&self.signing_key, number, unit);
        let sent = pass_checksum(&mut self.stream, self.key_exchange, checksum);
        self.number += 1;
        signature(number, sent)
    }

    /// Seals the range of a plain unit, and gives the unit's signature.
    pub fn seal(&mut self, unit: &mut [u8], from: usize, to: usize) -> [u8; 16]
        requires range { from ≤ to }
        requires within { to ≤ length unit.old }
        requires size { length unit.old ≤ 65536 }
        requires numbers { self.old.number < 2 ^ 32 - 1 }
        ensures signature { result ≡ signature_of self.old unit.old from to }
        ensures unit { unit.new ≡ combine self.old unit.old from to }
        ensures direction { self.new ≡ next_of self.old from to }
    {
        let number = self.number;
        let checksum = checksum(&self.signing_key, number, unit);
        let range = &mut unit[from..to];
        self.stream.apply(range);
        let sealed = pass_checksum(&mut self.stream, self.key_exchange, checksum);
        self.number += 1;
        signature(number, sealed)
    }

    /// Compares a signature with that of the next unit, of which this is the plain form.
    pub fn check(&mut self, unit: &[u8], signature: &[u8; 16]) -> Result<(), SealRefused>
        ensures answer { result ≡ verdict_of self.old unit.now 0 0 signature.now }
        ensures direction { self.new ≡ direction_left result self.old 0 0 }
    {
        self.expects(signature)?;
        let checksum = checksum(&self.signing_key, self.number, unit);
        let sent = pass_checksum(&mut self.stream, self.key_exchange, checksum);
        self.number += 1;
        if !has_checksum(signature, &sent) {
            return Err(SealRefused::BadChecksum);
        }
        Ok(())
    }

    /// Checks a unit whose range is sealed: opens the range, or leaves zeros there where the checksum is wrong.
    pub fn open(
        &mut self,
        unit: &mut [u8],
        from: usize,
        to: usize,
        signature: &[u8; 16],
    ) -> Result<(), SealRefused>
        requires range { from ≤ to }
        requires within { to ≤ length unit.old }
        requires size { length unit.old ≤ 65536 }
        ensures answer { result
            ≡ verdict_of self.old (combine self.old unit.old from to) from to signature.now }
        ensures unit { unit.new
            ≡ unit_left result unit.old (combine self.old unit.old from to) from to }
        ensures direction { self.new ≡ direction_left result self.old from to }
    {
        self.expects(signature)?;
        self.stream.apply(&mut unit[from..to]);
        let checksum = checksum(&self.signing_key, self.number, unit);
        let wanted = pass_checksum(&mut self.stream, self.key_exchange, checksum);
        self.number += 1;
        if !has_checksum(signature, &wanted) {
            clear(unit, from, to);
            return Err(SealRefused::BadChecksum);
        }
        Ok(())
    }

    /// Refuses, in this order, where the numbers are used up, and a signature whose version or number isn't the next
    /// unit's.
    fn expects(&self, signature: &[u8; 16]) -> Result<(), SealRefused>
        ensures answer { result ≡ expect self.now signature.now }
        ensures room { OnOk result (self.now.number < 2 ^ 32 - 1) }
    {
        if self.is_spent() {
            return Err(SealRefused::Spent);
        }
        if u32_at(signature, 0) != VERSION {
            return Err(SealRefused::BadVersion);
        }
        let found = u32_at(signature, 12);
        if found != self.number {
            return Err(SealRefused::BadSequence {
                found,
                wanted: self.number,
            });
        }
        Ok(())
    }
}

/// The version of a signature.
const VERSION: u32 = 1;

/// The number that begins at a place of a signature, low byte first.
fn u32_at(signature: &[u8; 16], at: usize) -> u32
    requires { at ≤ 12 }
    ensures { result ≡ from_le_bytes w32 (slice_range signature.now at (at + 4)) }
{
    u32::from_le_bytes([
        signature[at],
        signature[at + 1],
        signature[at + 2],
        signature[at + 3],
    ])
}

/// The checksum of a plain unit, before it is sent.
#[tactic(auto, unfolding(crate::specs::Directions::checksum_of))]
fn checksum(signing_key: &[u8; 16], number: u32, plain: &[u8]) -> [u8; 8]
    ensures { result ≡ checksum_of signing_key.now number plain.now }
{
    let mut hmac = Hmac::new(signing_key);
    hmac.update(&number.to_le_bytes());
    hmac.update(plain);
    first_half(&hmac.finish())
}

/// The first half of a digest.
fn first_half(digest: &[u8; 16]) -> [u8; 8]
    ensures { result ≡ take 8 digest.now }
{
    let mut half = [0; 8];
    half.copy_from_slice(&digest[..8]);
    half
}

/// The checksum as it is sent: with a key exchange it passes through the key stream.
fn pass_checksum(stream: &mut Rc4, key_exchange: bool, mut checksum: [u8; 8]) -> [u8; 8]
    requires { stream.old.used < 2 ^ 62 }
    ensures checksum { result ≡ sent_form_by key_exchange stream.old.key stream.old.used checksum }
    ensures stream { stream.new
        ≡ record stream.old { used = stream.old.used + checksum_bytes key_exchange } }
    ensures few { stream.new.used ≤ stream.old.used + 8 }
{
    if key_exchange {
        stream.apply(&mut checksum);
    }
    checksum
}

/// Whether a signature has this checksum.
fn has_checksum(signature: &[u8; 16], checksum: &[u8; 8]) -> bool
    ensures { result ≡ bytes_eq (checksum_in signature.now) checksum.now }
{
    &signature[4..12] == checksum.as_slice()
}

/// Leaves zeros in a range of a unit.
fn clear(unit: &mut [u8], from: usize, to: usize)
    requires range { from ≤ to }
    requires within { to ≤ length unit.old }
    ensures { unit.new ≡ take from unit.old ++ replicate (to - from) 0 ++ drop to unit.old }
{
    unit[from..to].fill(0);
}

/// A signature of its parts.
fn signature(number: u32, checksum: [u8; 8]) -> [u8; 16]
    ensures { result ≡ to_le_bytes w32 1 ++ checksum ++ to_le_bytes w32 number }
{
    let mut signature = [0; 16];
    signature[..4].copy_from_slice(&VERSION.to_le_bytes());
    signature[4..12].copy_from_slice(&checksum);
    signature[12..].copy_from_slice(&number.to_le_bytes());
    signature
}
