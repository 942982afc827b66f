//! A session as its owner sees it.

ghost use Rattle.std.specs.Prelude.{◌≡◌, ℕ, ◌+◌, ◌-◌, ◌^◌, ◌<◌, ◌≤◌, ◌↔◌, ◌++◌, List, length, take, drop, map, false, IsTrue, Ok, Err, OnOk};
ghost use Rattle.std.specs.List.{AllByRecursion};
ghost use Rattle.ntlm_flags.specs.Flags.{has_flag, negotiate_extended_sessionsecurity};
ghost use Rattle.ntlm_seal.specs.Directions.{Direction, combine, signature_of};
ghost use Rattle.ntlm_seal.specs.Sessions.{SessionState, session_of, seal_of, may_send, judge_of, open_of, unit_left};
ghost use Rattle.ntlm_seal.specs.Sides.{other_side};
ghost use Rattle.ntlm_seal.specs.Turns.{Paired, OpensAgain, IsAccepted};
ghost use Rattle.ntlm_seal.specs.Runs.{Follows, PlainUnit, HasRange, send_all, open_all, whole_opening};

use crate::direction::OneWay;
use crate::refusal::SealRefused;
use crate::side::Side;
use std::marker::Model;

/// One end of a session with extended session security (MS-NLMP 3.4): it signs and seals what its side sends, and
/// checks and opens what comes. Clauses see both directions and whether the session refused before.
#[derive(Drop)]
pub struct Session {
    sending: OneWay,
    receiving: OneWay,
    broken: bool,
}

impl Model for Session {
    ghost use Rattle.ntlm_seal.specs.Sessions.{SessionState};

    ghost Value = { SessionState };

    ghost view = { λ a. record { sending = a.sending; receiving = a.receiving; broken = a.broken } };
}

impl Session {
    /// The session of a side after the exported session key and the flags are agreed, before its first unit. Flag
    /// `NTLMSSP_NEGOTIATE_EXTENDED_SESSIONSECURITY` is among them.
    pub fn new(exported: [u8; 16], flags: u32, side: Side) -> Session
        requires { IsTrue (has_flag flags negotiate_extended_sessionsecurity) }
        ensures { result ≡ session_of exported flags side }
    {
        Session {
            sending: OneWay::new(&exported, flags, side),
            receiving: OneWay::new(&exported, flags, side.other()),
            broken: false,
        }
    }

    /// The signature of a unit that isn't sealed (MS-NLMP 3.4.2 and 3.4.4.2).
    ///
    /// `Broken` exactly where the session refused before; else `Spent` exactly where its number stands at 2^32 - 1.
    pub fn sign(&mut self, unit: &[u8]) -> Result<[u8; 16], SealRefused>
        ensures answer { result ≡ (seal_of self.old unit.now 0 0).answer }
        ensures session { self.new ≡ (seal_of self.old unit.now 0 0).session }
    {
        self.may_send()?;
        Ok(self.sending.sign(unit))
    }

    /// Encrypts the bytes of a unit from place `from` to before place `to`, and gives the signature of the plain unit
    /// (MS-NLMP 3.4.3 and 3.4.4.2). The checksum passes through the key stream after the range. The unit has at most
    /// 65,536 bytes.
    ///
    /// Refuses as `sign` does, and leaves the unit as it was.
    pub fn seal(&mut self, unit: &mut [u8], from: usize, to: usize) -> Result<[u8; 16], SealRefused>
        requires range { from ≤ to }
        requires within { to ≤ length unit.old }
        requires size { length unit.old ≤ 65536 }
        ensures answer { result ≡ (seal_of self.old unit.old from to).answer }
        ensures unit { unit.new ≡ (seal_of self.old unit.old from to).unit }
        ensures session { self.new ≡ (seal_of self.old unit.old from to).session }
    {
        self.may_send()?;
        Ok(self.sending.seal(unit, from, to))
    }

    /// Checks the signature of a unit that isn't sealed (MS-NLMP 3.4.4.2).
    ///
    /// Refuses with the first that stands: `Broken`, exactly where the session refused before; `Spent`, where the next
    /// number is 2^32 - 1; `BadVersion`, where the signature's version isn't 1; `BadSequence`, where its number isn't
    /// the next; `BadChecksum`.
    pub fn check(&mut self, unit: &[u8], signature: &[u8; 16]) -> Result<(), SealRefused>
        ensures answer { result ≡ (judge_of self.old unit.now 0 0 signature.now).answer }
        ensures session { self.new ≡ (judge_of self.old unit.now 0 0 signature.now).session }
        ensures accepts { self.old.broken ≡ false → self.old.receiving.number < 2 ^ 32 - 1
            → ((result ≡ Ok tt) ↔ (signature.now ≡ signature_of self.old.receiving unit.now 0 0)) }
    {
        if self.broken {
            return Err(SealRefused::Broken);
        }
        let answer = self.receiving.check(unit, signature);
        self.broken = answer.is_err();
        answer
    }

    /// Decrypts the bytes of a unit from place `from` to before place `to`, and checks the signature of the plain unit
    /// (MS-NLMP 3.4.3 and 3.4.4.2). The unit has at most 65,536 bytes.
    ///
    /// Refuses as `check` does. After `BadChecksum` the range holds zeros, and after every other refusal the unit is as
    /// it was.
    pub fn open(
        &mut self,
        unit: &mut [u8],
        from: usize,
        to: usize,
        signature: &[u8; 16],
    ) -> Result<(), SealRefused>
        requires range { from ≤ to }
        requires within { to ≤ length unit.old }
        requires size { length unit.old ≤ 65536 }
        ensures answer { result ≡ (open_of self.old unit.old from to signature.now).answer }
        ensures unit { unit.new
            ≡ unit_left result unit.old (combine self.old.receiving unit.old from to) from to }
        ensures session { self.new ≡ (open_of self.old unit.old from to signature.now).session }
        ensures accepts { let plain = combine self.old.receiving unit.old from to in
            self.old.broken ≡ false → self.old.receiving.number < 2 ^ 32 - 1
            → ((result ≡ Ok tt) ↔ (signature.now ≡ signature_of self.old.receiving plain from to)) }
    {
        if self.broken {
            return Err(SealRefused::Broken);
        }
        let opened = self.receiving.open(unit, from, to, signature);
        self.broken = opened.is_err();
        opened
    }

    /// Refuses to send where the session is broken or the numbers of the direction are used up, which breaks it.
    fn may_send(&mut self) -> Result<(), SealRefused>
        ensures answer { result ≡ (may_send self.old).answer }
        ensures session { self.new ≡ (may_send self.old).session }
        ensures room { OnOk result (self.new.sending.number < 2 ^ 32 - 1) }
    {
        match (self.broken, self.sending.is_spent()) {
            (true, _) => Err(SealRefused::Broken),
            (false, true) => {
                self.broken = true;
                Err(SealRefused::Spent)
            }
            (false, false) => Ok(()),
        }
    }
}

/// What one side seals the other opens to the same bytes, in order.
///
/// In a session of the client and one of the server, of one exported session key and the same flags, the units that one
/// seals and the other opens, one after another, are all opened, and to what they were: fewer than 2^32 units with a
/// range in each. Any two sessions that refused nothing carry units in this way, where one sends in the direction in
/// which the other receives.
pub fn what_is_sealed_opens()
    ensures to_server { (exported : List ℕ) (flags : ℕ) (units : List PlainUnit)
        → AllByRecursion HasRange units → length units < 2 ^ 32
        → open_all (session_of exported flags Side.Server)
        (send_all (session_of exported flags Side.Client) units)
        ≡ map whole_opening units }
    ensures to_client { (exported : List ℕ) (flags : ℕ) (units : List PlainUnit)
        → AllByRecursion HasRange units → length units < 2 ^ 32
        → open_all (session_of exported flags Side.Client)
        (send_all (session_of exported flags Side.Server) units)
        ≡ map whole_opening units }
    ensures from_any { (sender receiver : SessionState) (units : List PlainUnit)
        → Follows sender receiver
        → AllByRecursion HasRange units → sender.sending.number + length units < 2 ^ 32
        → open_all receiver (send_all sender units) ≡ map whole_opening units }
{}

/// What one side sends the other takes, and both are in step again.
///
/// Two sessions are in step where neither refused and each sends in the direction in which the other receives, as the
/// two ends of one exported session key do before their first unit. Then a unit that one of them seals, or signs, while
/// its number is below 2^32 - 1, is opened to the same bytes, or checked, by the other; both are in step again, and the
/// other direction is as it was. Sealing changes the bytes of the range alone, and a signature has 16 bytes.
pub fn what_is_sent_is_taken()
    ensures first { (exported : List ℕ) (flags : ℕ) (side : Side)
        → Paired (session_of exported flags side) (session_of exported flags (other_side side)) }
    ensures either { (one other : SessionState) → Paired one other → Paired other one }
    ensures sealed { (one other : SessionState) (unit : List ℕ) (from to : ℕ)
        → Paired one other → from ≤ to → to ≤ length unit → one.sending.number < 2 ^ 32 - 1
        → OpensAgain one other unit from to }
    ensures signed { (one other : SessionState) (unit : List ℕ)
        → Paired one other → one.sending.number < 2 ^ 32 - 1
        → IsAccepted one other unit }
    ensures range { (d : Direction) (unit : List ℕ) (from to : ℕ) → from ≤ to → to ≤ length unit
        → (range : List ℕ) × (length range ≡ to - from)
        × (combine d unit from to ≡ take from unit ++ range ++ drop to unit) }
    ensures signature { (d : Direction) (plain : List ℕ) (from to : ℕ)
        → length (signature_of d plain from to) ≡ 16 }
{}
