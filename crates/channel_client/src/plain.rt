//! A channel that seals nothing.

ghost use Rattle.std.specs.Prelude.{◌≡◌, ◌≤◌, length, IfOk, OnOk, OnErr, None};
ghost use Rattle.logon_stubs.specs.Ranges.{InRangeSamInfo};
ghost use Rattle.logon_stubs.specs.Writing.{CanWriteNetworkInfo, CanWriteSamInfo};
ghost use Rattle.channel_client.specs.Grants.{IfTaken};
ghost use Rattle.channel_client.specs.Machine.{fresh_requester, ask_of, AsksBy, needs_challenge, can_start, start_of, take_of, lose_of, use_secret_of, set_next_of};
ghost use Rattle.channel_client.specs.declared.state.Standing.TheVariants as standing;

use crate::answers::{AskRefused, TakeRefused, Taken};
use crate::channel::Channel;
use crate::kept::Kept;
use crate::short_frames::ShortFrames;
use crate::turn::Turn;
use logon_stubs::NetworkInfo;
use outside::DropCause;
use rpc_units::Unit;
use std::alloc::Global;
use std::marker::Model;
use wire_base::{Name, NoMemory, Units};

/// One end of a secure channel that seals nothing, the one that asks, and the logons that wait for it. It keeps what a
/// `Channel` keeps, in one place of memory too, and its steps are those of an end that can't seal. Clauses see it as
/// the record of what it keeps.
pub struct PlainChannel {
    pub(crate) kept: Box<Kept>,
}

impl Drop for PlainChannel {
    // The drop that would be derived. Written out, it is one call wherever a value that holds a `PlainChannel` is let
    // go, which keeps the proofs of those places short.
    fn drop(self) {
        let PlainChannel { kept: _kept } = self;
    }
}

impl Model for PlainChannel {
    ghost use Rattle.channel_client.specs.State.{Requester};

    ghost Value = { Requester };

    ghost view = { λ c. c.kept.value };
}

impl PlainChannel {
    /// A channel that is none, for which nobody waits: of the account with this secret, which is its NT hash, and this
    /// name of at most 65 units; of this computer; and of this type (MS-NRPC 2.2.1.3.13). `NoMemory` where no memory
    /// was found.
    pub fn new(
        alloc: Global,
        secret: [u8; 16],
        computer: Name,
        account: Units,
        kind: u16,
    ) -> Result<PlainChannel, NoMemory>
        requires { length account ≤ 65 }
        ensures { IfOk result (λ channel. channel ≡ fresh_requester
            (record { secret = secret; computer = computer; account = account; kind = kind })) }
    {
        let kept = Kept::plain(alloc, secret, computer, account, kind)?;
        Ok(PlainChannel {
            kept: Box::new(alloc, kept)?,
        })
    }

    /// Gives the account another secret, by which the channel is opened. The channel is none, and no turn is out. It
    /// takes no memory.
    pub fn use_secret(&mut self, secret: [u8; 16])
        requires none { self.old.standing ≡ standing.Nothing }
        requires idle { self.old.turn ≡ None }
        ensures { self.new ≡ use_secret_of self.old secret }
    {
        self.kept.use_secret(secret);
    }

    /// The secret that the account is to have, or none. While there is one, a turn on the open channel sets it, before
    /// any logon is asked for. No turn is out. It takes no memory.
    pub fn set_next(&mut self, next: Option<[u8; 16]>)
        requires { self.old.turn ≡ None }
        ensures { self.new ≡ set_next_of self.old next }
    {
        self.kept.set_next(next);
    }

    /// Lets a logon wait behind those that wait, and gives its place, counted from 0 modulo 2^32, which becomes the
    /// logon's id. A logon in a turn waits too.
    ///
    /// `QueueFull` exactly where 64 wait. It and `Memory` change nothing.
    pub fn ask(&mut self, logon: NetworkInfo) -> Result<u32, AskRefused>
        requires { CanWriteNetworkInfo logon }
        ensures { AsksBy result (ask_of self.old logon) self.old self.new }
    {
        self.kept.ask(logon)
    }

    /// Whether a turn that starts draws a challenge: true exactly where the channel is none. It takes no memory.
    pub fn needs_challenge(&self) -> bool
        ensures { result ≡ needs_challenge self.now.standing }
    {
        self.kept.is_none()
    }

    /// Whether a turn can start: true exactly where somebody waits and no turn is out. It takes no memory.
    pub fn can_start(&self) -> bool
        ensures { result ≡ can_start self.now.turn self.now.waiting }
    {
        self.kept.can_start()
    }

    /// Starts the turn of the first logon that waits: gives the right to it, and the frames of its bind. Its call is
    /// NetrServerReqChallenge with the challenge where the channel is none, NetrServerAuthenticate2 where both
    /// challenges are known, and where it is open NetrServerPasswordSet of the next secret, where there is one, and
    /// else NetrLogonSamLogon of the logon, with the timestamp. Otherwise the challenge isn't looked at, nor is the
    /// timestamp.
    ///
    /// None exactly where nobody waits or a turn is out. `NoMemory` where no memory was found; then nothing changes.
    pub fn start_turn(
        &mut self,
        alloc: Global,
        timestamp: u32,
        challenge: [u8; 8],
    ) -> Result<Option<(Turn, ShortFrames)>, NoMemory>
        ensures answer { IfOk result
            (λ given. given ≡ (start_of self.old timestamp challenge).answer) }
        ensures state { OnOk result (self.new ≡ (start_of self.old timestamp challenge).state) }
        ensures unchanged { OnErr result (self.new ≡ self.old) }
    {
        self.kept.start_plain(alloc, timestamp, challenge)
    }

    /// Takes a whole unit that came on the turn's link. `Skip` exactly where its call number isn't the one that the
    /// turn waits for; the right comes back with it, and with `Next`. `Dropped` has the first cause, in the order of
    /// docs/FORMATS.md.
    ///
    /// `Memory` where no memory was found; the right comes back, and nothing changes.
    pub fn take(&mut self, alloc: Global, turn: Turn, unit: &Unit) -> Result<Taken, TakeRefused>
        ensures answer { IfOk result (λ taken. taken ≡ (take_of self.old unit.now).taken) }
        ensures state { OnOk result (self.new ≡ (take_of self.old unit.now).state) }
        ensures unchanged { OnErr result (self.new ≡ self.old) }
        // What is granted can be handed on: it can be written into a stub again, and has its ranges.
        ensures writable { IfOk result (λ taken. IfTaken taken CanWriteSamInfo) }
        ensures range { IfOk result (λ taken. IfTaken taken InRangeSamInfo) }
    {
        self.kept.take_plain(alloc, turn, unit)
    }

    /// Gives the turn up, for a cause outside of the channel: the first logon waits no more, and the channel is none.
    /// Gives the logon's place. It takes no memory.
    pub fn lose(&mut self, turn: Turn, cause: DropCause) -> u32
        ensures place { result ≡ (lose_of self.old).place }
        ensures state { self.new ≡ (lose_of self.old).state }
    {
        self.kept.lose(turn, cause)
    }

    /// The channel as one that may seal: it does where it is one that seals. It takes no memory.
    pub fn into_channel(self) -> Channel
        ensures { result ≡ self }
    {
        let PlainChannel { kept } = self;
        Channel { kept }
    }
}
