//! What the operations work on, and their turns.

use crate::accounts::Accounts;
use crate::calls::Calls;
use crate::digests::{codes, digests, key_streams};
use crate::drill::drills;
use crate::keys::Keys;
use crate::logon::{read_logons, write_replies};
use crate::members::Logons;
use crate::operation::Operation;
use crate::packets::Packets;
use crate::sealing::Sides;
use crate::stream::{PIECE, RunningStream};
use arrayvec::ArrayVec;
use std::alloc::{AllocError, Global};
use wire_base::Units;

/// The bytes 0 to 15: a key, and a short message.
pub const KEY: [u8; 16] = [0, 1, 2, 3, 4, 5, 6, 7, 8, 9, 10, 11, 12, 13, 14, 15];

/// The last bytes of what an operation gives, at most 16.
pub type Outcome = ArrayVec<u8, 16>;

/// The input of all operations, which is fixed.
pub struct Bench {
    long: Box<[u8; PIECE]>,
    stream: RunningStream,
    keys: Keys,
    packets: Packets,
    calls: Calls,
    logons: Logons,
    accounts: Accounts,
    sides: Sides,
}

impl Drop for Bench {
    // The drop that would be derived. Written out, it is one call wherever a value that holds a `Bench` is let go,
    // which keeps the proofs of those places short.
    fn drop(self) {
        let Bench {
            long: _long,
            stream: _stream,
            keys: _keys,
            packets: _packets,
            calls: _calls,
            logons: _logons,
            accounts: _accounts,
            sides: _sides,
        } = self;
    }
}

impl Bench {
    /// The input as it stands before the first turn.
    pub fn new(alloc: Global) -> anyhow::Result<Bench> {
        let long = Box::new(alloc, ramp())?;
        let keys = Keys::new(alloc)?;
        let packets = Packets::new(alloc)?;
        let calls = Calls::new(alloc)?;
        let logons = Logons::new(alloc)?;
        let accounts = Accounts::new(alloc)?;
        Ok(Bench {
            long,
            stream: RunningStream::new(),
            keys,
            packets,
            calls,
            logons,
            accounts,
            sides: Sides::new(KEY),
        })
    }

    /// Runs an operation as many turns as asked for, and gives the end of what the last of them gives.
    pub fn perform(
        &mut self,
        alloc: Global,
        operation: Operation,
        turns: u32,
    ) -> anyhow::Result<Outcome> {
        match operation {
            Operation::Md4Short
            | Operation::Md4Long
            | Operation::HmacShort
            | Operation::HmacLong
            | Operation::Rc4Key => Ok(self.digest(operation, turns)),
            Operation::Rc4Long => Ok(self.stream.pieces(turns)),
            Operation::DesBlock
            | Operation::DesKeyBlock
            | Operation::Credential
            | Operation::JudgeAuthenticator
            | Operation::VerifyV1
            | Operation::VerifyV2 => self.keys.perform(operation, turns),
            Operation::ReadAuthenticate
            | Operation::ViewAuthenticate
            | Operation::AuthenticatePlain
            | Operation::ReadUnit
            | Operation::ViewUnit
            | Operation::ViewPlain => self.packets.perform(alloc, operation, turns),
            Operation::ReadLogonCall => read_logons(alloc, self.packets.logon(), turns),
            Operation::WriteLogonReply => write_replies(alloc, turns),
            Operation::ControllerLogon => self.calls.log_on(alloc, turns),
            Operation::MemberLogon => self.logons.let_in(alloc, turns),
            Operation::Seal => self.sides.carry(turns),
            Operation::ReadTable => self.accounts.read_tables(alloc, turns),
            Operation::FindAccount => Ok(self.accounts.find_all(turns)),
            Operation::DrillShort => drills(alloc, 10_000, turns),
            Operation::DrillLong => drills(alloc, 100_000, turns),
        }
    }

    /// Makes as many digests, or key streams, as `turns`.
    fn digest(&self, operation: Operation, turns: u32) -> Outcome {
        match operation {
            Operation::Md4Short => digests(&KEY, turns),
            Operation::Md4Long => digests(self.long.as_slice(), turns),
            Operation::HmacShort => codes(&ramp::<40>(), turns),
            Operation::HmacLong => codes(self.long.as_slice(), turns),
            _ => key_streams(turns),
        }
    }
}

/// The bytes 0, 1, 2 and so on, modulo 256.
pub fn ramp<const N: usize>() -> [u8; N] {
    let mut bytes = [0; N];
    for place in 0..N {
        bytes[place] = (place % 256) as u8;
    }
    bytes
}

/// The last 16 of these bytes, or all of fewer.
pub fn end_of(bytes: &[u8]) -> Outcome {
    let from = bytes.len().saturating_sub(16);
    let mut end = ArrayVec::new();
    end.try_extend_from_slice(&bytes[from..]).unwrap();
    end
}

/// An ASCII text as 16-bit units.
pub fn units(alloc: Global, text: &[u8]) -> Result<Units, AllocError> {
    let units = text.iter().map(|letter| u16::from(*letter)).collect(alloc)?;
    Ok(Units::from_vec(units))
}
