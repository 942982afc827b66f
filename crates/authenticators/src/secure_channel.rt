//! A secure channel at one of its ends.

ghost use Rattle.std.specs.Prelude.{◌≡◌};
ghost use Rattle.authenticators.specs.Sequences.{authenticator_of};
ghost use Rattle.authenticators.specs.SecureChannels.{key_of_channel, fresh_channel, with_kind, after_call, is_awaited, after_return, passes_on, return_by, channel_by};

use crate::sequence::Sequence;
use channel_keys::{cred, session_key};
use std::marker::Model;
use wire_base::Authenticator;

/// A secure channel at one of its ends (MS-NRPC 3.1.1): the secret, both challenges and the flags that it was made
/// with, and the sequence of its authenticators. Clauses see its seed and the return credential that is awaited, and
/// the key as what the rest gives. An end that only judges awaits none, and keeps the type of the channel.
#[derive(Drop)]
pub struct SecureChannel {
    secret: [u8; 16],
    client: [u8; 8],
    server: [u8; 8],
    flags: u32,
    kind: Option<u16>,
    sequence: Sequence,
}

impl Model for SecureChannel {
    ghost use Rattle.std.specs.Prelude.{◌≡◌};
    ghost use Rattle.channel_keys.specs.SessionKeys.{key_of};
    ghost use Rattle.authenticators.specs.SecureChannels.{SecureChannelState};

    ghost Value = { SecureChannelState };

    ghost view = { λ c. record { secret = c.secret; client = c.client; server = c.server; flags = c.flags; kind = c.kind; seed = c.sequence.seed; awaited = c.sequence.awaited } };

    ghost invariant = { λ c. c.sequence.key ≡ key_of c.secret c.client c.server c.flags };
}

impl SecureChannel {
    /// The channel as it opens (MS-NRPC 3.1.4.1): its seed is the client's credential, and no return credential is
    /// awaited. No type is kept yet.
    pub fn new(secret: [u8; 16], client: [u8; 8], server: [u8; 8], flags: u32) -> SecureChannel
        ensures { result ≡ fresh_channel secret client server flags }
    {
        let key = session_key(secret, client, server, flags);
        SecureChannel {
            secret,
            client,
            server,
            flags,
            kind: None,
            sequence: Sequence::new(key, cred(key, client)),
        }
    }

    /// The channel as one of that type (MS-NRPC 2.2.1.3.13), for the end that judges. Nothing else changes.
    pub fn with_kind(self, kind: u16) -> SecureChannel
        ensures { result ≡ with_kind kind self }
    {
        SecureChannel {
            kind: Some(kind),
            ..self
        }
    }

    /// The type of the channel, where one is kept.
    pub fn kind(&self) -> Option<u16>
        ensures { result ≡ self.now.kind }
    {
        self.kind
    }

    /// The session key (MS-NRPC 3.1.4.3).
    pub fn key(&self) -> [u8; 16]
        ensures { result ≡ key_of_channel self.now }
    {
        self.sequence.key()
    }

    /// The next authenticator, with this timestamp (MS-NRPC 3.1.4.5). The seed moves on, and the credential of the new
    /// one is awaited in return.
    pub fn make(&mut self, timestamp: u32) -> Authenticator
        ensures authenticator { result ≡
            authenticator_of (key_of_channel self.old) self.old.seed timestamp }
        ensures state { self.new ≡ after_call self.old timestamp }
    {
        self.sequence.make(timestamp)
    }

    /// Whether the return credential is the one that is awaited (MS-NRPC 3.1.4.5). Where it is, none is awaited any
    /// more; else nothing changes.
    pub fn take_return(&mut self, credential: [u8; 8]) -> bool
        ensures answer { result ≡ is_awaited self.old.awaited credential }
        ensures state { self.new ≡ after_return (is_awaited self.old.awaited credential) self.old }
    {
        match self.sequence.awaits() {
            Some(_) => self.sequence.take_return(credential).is_ok(),
            None => false,
        }
    }

    /// Judges an authenticator of the other end (MS-NRPC 3.1.4.5): the credential that is returned, where it passes.
    /// Then the seed moves on; else nothing changes.
    pub fn judge(&mut self, given: &Authenticator) -> Option<[u8; 8]>
        ensures answer { result ≡ return_by (passes_on self.old given.now) self.old given.now }
        ensures channel { self.new
            ≡ channel_by (passes_on self.old given.now) self.old given.now }
    {
        self.sequence.judge(given).ok()
    }
}
