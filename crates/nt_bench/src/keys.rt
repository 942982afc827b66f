//! Turns of DES, credentials, authenticators and responses.

use crate::bench::{KEY, Outcome, end_of, ramp, units};
use crate::operation::Operation;
use anyhow::bail;
use authenticators::Sequence;
use channel_keys::cred;
use des_cipher::{Schedule, des_block};
use hex::FromHex;
use ntlm_responses::verify;
use std::alloc::Global;
use wire_base::{Authenticator, Units};

/// The NT hash of `Password`.
const HASH: [u8; 16] = [
    0xa4, 0xf4, 0x9c, 0x40, 0x65, 0x10, 0xbd, 0xca, 0xb6, 0x82, 0x4e, 0xe7, 0xc3, 0x0f, 0xd8, 0x52,
];

const CHALLENGE: [u8; 8] = [0x01, 0x23, 0x45, 0x67, 0x89, 0xab, 0xcd, 0xef];

/// The credential of the authenticator at the seed `CHALLENGE` with the last timestamp, under the fixed key. That
/// timestamp and one are 2^32, so the seed comes back to itself, and the authenticator passes at each turn.
const CREDENTIAL: [u8; 8] = [0x53, 0x24, 0xb4, 0x5a, 0x6c, 0x1e, 0xb4, 0xcb];

/// The NTLMv1 response of the hash to the challenge.
const RESPONSE_V1: &str = "67c43011f30298a2ad35ece64f16331c44bdbed927841f94";

/// The NTLMv2 proof of the hash, the names and the challenge over the bytes 0, 1, 2 and so on to 276 of them.
const PROOF_V2: &str = "d384a02bf52a89bfa7a553c5b75fc197";

/// A schedule and the block that is enciphered next under it, a channel's sequence, and responses to judge with the
/// names that they are made of.
pub struct Keys {
    schedule: Schedule,
    block: [u8; 8],
    sequence: Sequence,
    user: Units,
    domain: Units,
    response_v1: [u8; 24],
    response_v2: [u8; 292],
}

impl Drop for Keys {
    // The drop that would be derived. Written out, it is one call wherever a value that holds a `Keys` is let go, which
    // keeps the proofs of those places short.
    fn drop(self) {
        let Keys {
            schedule: _schedule,
            block: _block,
            sequence: _sequence,
            user: _user,
            domain: _domain,
            response_v1: _response_v1,
            response_v2: _response_v2,
        } = self;
    }
}

impl Keys {
    /// The keys before the first turn.
    pub fn new(alloc: Global) -> anyhow::Result<Keys> {
        let response_v1 = <[u8; 24]>::from_hex(RESPONSE_V1)?;
        let response_v2 = response_v2()?;
        let user = units(alloc, b"Administrator")?;
        let domain = units(alloc, b"CORP1")?;
        Ok(Keys {
            schedule: Schedule::new(ramp()),
            block: CHALLENGE,
            sequence: Sequence::new(KEY, CHALLENGE),
            user,
            domain,
            response_v1,
            response_v2,
        })
    }

    /// Runs an operation on keys, as many turns as asked for.
    pub fn perform(&mut self, operation: Operation, turns: u32) -> anyhow::Result<Outcome> {
        match operation {
            Operation::DesBlock => Ok(self.blocks(turns)),
            Operation::DesKeyBlock => Ok(key_blocks(turns)),
            Operation::Credential => Ok(credentials(turns)),
            Operation::JudgeAuthenticator => self.judge(turns),
            Operation::VerifyV1 => self.verify(&self.response_v1, turns),
            _ => self.verify(&self.response_v2, turns),
        }
    }

    /// Makes as many blocks of the chain as asked for.
    fn blocks(&mut self, turns: u32) -> Outcome {
        for _ in 0..turns {
            self.block = self.schedule.block(self.block);
        }
        end_of(&self.block)
    }

    /// The return credential of the authenticator, which is judged `turns` times.
    fn judge(&mut self, turns: u32) -> anyhow::Result<Outcome> {
        let authenticator = Authenticator {
            credential: CREDENTIAL,
            timestamp: u32::MAX,
        };
        let mut credential = [0; 8];
        for _ in 0..turns {
            match self.sequence.judge(&authenticator) {
                Ok(returned) => credential = returned,
                Err(_) => bail!("an authenticator was refused"),
            }
        }
        Ok(end_of(&credential))
    }

    /// The session base key that the check of a response gives, checked `turns` times.
    fn verify(&self, response: &[u8], turns: u32) -> anyhow::Result<Outcome> {
        let (user, domain) = (self.user.units(), self.domain.units());
        let mut base_key = [0; 16];
        for _ in 0..turns {
            match verify(&HASH, user, domain, CHALLENGE, response) {
                Some(key) => base_key = key,
                None => bail!("a response was refused"),
            }
        }
        Ok(end_of(&base_key))
    }
}

/// One block under a key of 7 bytes, encrypted `turns` times.
fn key_blocks(turns: u32) -> Outcome {
    let mut block = [0; 8];
    for _ in 0..turns {
        block = des_block(ramp(), ramp());
    }
    end_of(&block)
}

/// The credential of 8 bytes under the fixed key, computed `turns` times.
fn credentials(turns: u32) -> Outcome {
    let mut credential = [0; 8];
    for _ in 0..turns {
        credential = cred(KEY, ramp());
    }
    end_of(&credential)
}

/// The NTLMv2 response of 292 bytes.
fn response_v2() -> anyhow::Result<[u8; 292]> {
    let mut response = [0; 292];
    response[..16].copy_from_slice(&<[u8; 16]>::from_hex(PROOF_V2)?);
    response[16..].copy_from_slice(&ramp::<276>());
    Ok(response)
}
