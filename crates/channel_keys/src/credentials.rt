//! Credentials: what a side shows of the session key.

ghost use Rattle.std.specs.Prelude.{◌≡◌, ℕ, List, take, drop};
ghost use Rattle.des_cipher.specs.Des.{IsBlock};
ghost use Rattle.channel_keys.specs.Credentials.{cred_of, cred_back_of};

use crate::parts::{des_back_under, des_under, seven};
use des_cipher::Schedule;
use std::marker::Model;

/// The credential of 8 bytes under a session key (MS-NRPC 3.1.4.4.2): DES under bytes 0 to 6 of the key, and then under
/// bytes 7 to 13. `cred_back` undoes it.
#[tactic(auto, unfolding(crate::specs::Credentials::cred_of))]
pub fn cred(key: [u8; 16], input: [u8; 8]) -> [u8; 8]
    ensures value { result ≡ cred_of key input }
    ensures undone { cred_back_of key result ≡ input }

    // Two inputs never have one credential.
    ensures one_to_one { (other : List ℕ) → IsBlock other →
        cred_of key other ≡ result → other ≡ input }
{
    let once = des_under(&key, 0, &input);
    des_under(&key, 7, &once)
}

/// The input of which these 8 bytes are the credential under a session key. `cred` undoes it.
#[tactic(auto, unfolding(crate::specs::Credentials::cred_back_of))]
pub fn cred_back(key: [u8; 16], output: [u8; 8]) -> [u8; 8]
    ensures value { result ≡ cred_back_of key output }
    ensures undone { cred_of key result ≡ output }
{
    let once = des_back_under(&key, 7, &output);
    des_back_under(&key, 0, &once)
}

/// A session key of 16 bytes with the schedules of its two keys of DES, for many credentials under one key. Clauses see
/// the key.
#[derive(Drop)]
pub struct CredKey {
    key: [u8; 16],
    first: Schedule,
    second: Schedule,
}

impl Model for CredKey {
    ghost Value = { List ℕ };

    ghost view = { λ s. s.key };

    ghost invariant = { λ s. (s.first ≡ take 7 (drop 0 s.key)) × (s.second ≡ take 7 (drop 7 s.key)) };
}

impl CredKey {
    /// The session key, with the schedules of bytes 0 to 6 and of bytes 7 to 13.
    pub fn new(key: [u8; 16]) -> CredKey
        ensures { result ≡ key }
    {
        CredKey {
            key,
            first: Schedule::new(seven(&key, 0)),
            second: Schedule::new(seven(&key, 7)),
        }
    }

    /// The session key.
    pub fn key(&self) -> [u8; 16]
        ensures { result ≡ self.now }
    {
        self.key
    }

    /// The credential of 8 bytes under the session key, as `cred` gives it (MS-NRPC 3.1.4.4.2).
    #[tactic(auto, unfolding(crate::specs::Credentials::cred_of))]
    pub fn cred(&self, input: [u8; 8]) -> [u8; 8]
        ensures { result ≡ cred_of self.now input }
    {
        self.second.block(self.first.block(input))
    }
}
