//! One end's sequence.

ghost use Rattle.std.specs.Prelude.{◌≡◌, ◌↔◌, None, Some, IsOk, IsSome};
ghost use Rattle.authenticators.specs.Sequences.{SequenceState, Passes, authenticator_of, sequence_after, taken_of, judge_of};

use crate::refusal::NotNext;
use crate::seed::add_to;
use channel_keys::CredKey;
use std::marker::Model;
use wire_base::Authenticator;

/// One end's sequence of authenticators on a channel (MS-NRPC 3.1.4.5). Clauses see the session key, the seed, and the
/// return credential that is awaited, if any.
#[derive(Drop)]
pub struct Sequence {
    key: CredKey,
    seed: [u8; 8],
    awaited: Option<[u8; 8]>,
}

impl Model for Sequence {
    ghost use Rattle.authenticators.specs.Sequences.{SequenceState};

    ghost Value = { SequenceState };

    ghost view = { λ s. record { key = s.key; seed = s.seed; awaited = s.awaited } };
}

impl Sequence {
    /// The sequence of a channel with this session key, from this seed on, which is at first the client's credential.
    /// No return credential is awaited.
    pub fn new(key: [u8; 16], seed: [u8; 8]) -> Sequence
        ensures { result ≡ record { key = key; seed = seed; awaited = None } }
    {
        Sequence {
            key: CredKey::new(key),
            seed,
            awaited: None,
        }
    }

    /// The session key of the channel.
    pub fn key(&self) -> [u8; 16]
        ensures { result ≡ self.now.key }
    {
        self.key.key()
    }

    /// The next authenticator, with this timestamp. The seed moves on by the timestamp and one, and the credential of
    /// the new seed is awaited in return.
    pub fn make(&mut self, timestamp: u32) -> Authenticator
        ensures authenticator { result ≡ authenticator_of self.old.key self.old.seed timestamp }
        ensures sequence { self.new ≡ sequence_after self.old timestamp }
    {
        let seed = add_to(&self.seed, timestamp);
        self.seed = add_to(&seed, 1);
        self.awaited = Some(self.key.cred(self.seed));
        Authenticator {
            credential: self.key.cred(seed),
            timestamp,
        }
    }

    /// The return credential that is awaited. None exactly where none is.
    pub fn awaits(&self) -> Option<[u8; 8]>
        ensures { result ≡ self.now.awaited }
    {
        self.awaited
    }

    /// Takes the return credential that is awaited, and then awaits none. One is awaited.
    ///
    /// `NotNext` exactly where it is another credential; then nothing changes.
    pub fn take_return(&mut self, credential: [u8; 8]) -> Result<(), NotNext>
        requires { IsSome self.old.awaited }
        ensures answer { result ≡ (taken_of self.old credential).answer }
        ensures sequence { self.new ≡ (taken_of self.old credential).sequence }
        ensures taken { IsOk result ↔ (self.old.awaited ≡ Some credential) }
    {
        let awaited = self.awaited.unwrap();
        if credential != awaited {
            return Err(NotNext { awaited });
        }
        self.awaited = None;
        Ok(())
    }

    /// Judges an authenticator of the other end. It passes exactly where its credential is that of the seed with its
    /// timestamp added; then the seed moves on by the timestamp and one, and the credential of the new seed is
    /// returned.
    ///
    /// `NotNext` exactly where it doesn't pass; then nothing changes.
    pub fn judge(&mut self, given: &Authenticator) -> Result<[u8; 8], NotNext>
        ensures answer { result ≡ (judge_of self.old given.now).answer }
        ensures sequence { self.new ≡ (judge_of self.old given.now).sequence }
        ensures passes { IsOk result ↔ Passes self.old.key self.old.seed given.now }
    {
        let seed = add_to(&self.seed, given.timestamp);
        let awaited = self.key.cred(seed);
        if given.credential != awaited {
            return Err(NotNext { awaited });
        }
        let after = add_to(&seed, 1);
        self.seed = after;
        Ok(self.key.cred(after))
    }
}
