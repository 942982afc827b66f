//! What a channel keeps, and what it does with it.

ghost use Rattle.std.specs.Prelude.{◌≡◌, ◌≤◌, ◌<◌, ◌+◌, length, IfOk, OnOk, OnErr, None, Some, true};
ghost use Rattle.logon_stubs.specs.Ranges.{InRangeSamInfo};
ghost use Rattle.logon_stubs.specs.Writing.{CanWriteNetworkInfo, CanWriteSamInfo};
ghost use Rattle.channel_client.specs.Grants.{CanWriteHeard, IfTaken};
ghost use Rattle.channel_client.specs.Machine.{CanWriteStep, fresh_requester, ask_of, AsksBy, needs_challenge, can_start, start_of, wait_for, hear, settle, act, take_of, lose_of, end_turn, remove_first, place_of, use_secret_of, set_next_of, settle_set, act_set};
ghost use Rattle.channel_client.specs.Sealed.{act_sealed, channel_start, channel_take, draws_challenge, fresh_channel_of, hear_room, heard_of, is_sealed, sealed_start_of, settle_sealed, start_sealed, take_sealed, unseal_of};
ghost use Rattle.channel_client.specs.Sealing.{CanSealOn, opened_sealing, sealing_for};
ghost use Rattle.channel_client.specs.declared.state.Standing.TheVariants as standing;

use crate::answers::{AskRefused, TakeRefused, Taken};
use crate::caller::Caller;
use crate::hearing::{Hearing, SetHearing, hear_body, hear_room_body, seal_heard};
use crate::judging::{Judgement, judge, judge_sealed, judge_set};
use crate::sealing::{is_opened, is_wire_sealed, sealing_for, with_confounder};
use crate::short_frames::ShortFrames;
use crate::starting::{begin_sealed, begin_with, bind_frames, sealed_bind_frames};
use crate::state::{Pending, Sealing, SetStep, Standing, Step, Waiting};
use crate::turn::Turn;
use authenticators::SecureChannel;
use logon_stubs::NetworkInfo;
use netlogon_seal::{NlRefused, NlSeal};
use outside::DropCause;
use rpc_units::Unit;
use std::alloc::Global;
use std::marker::Model;
use std::mem;
use wire_base::{Blob, Name, NoMemory, Units};

/// The most logons that wait for one channel (this project's own choice).
pub const WAITING_LIMIT: usize = 64;

/// What one end of a secure channel keeps, the one that asks, and the logons that wait for it. `Channel` and
/// `PlainChannel` have it in one place of memory. Clauses see it as the record of its parts.
pub(crate) struct Kept {
    caller: Caller,
    standing: Standing,
    waiting: Vec<Waiting>,
    next_place: u32,
    next_call: u32,
    turn: Option<Pending>,
    next: Option<[u8; 16]>,
    sealing: Option<Sealing>,
}

impl Drop for Kept {
    // The drop that would be derived. Written out, it is one call wherever a value that holds a `Kept` is let go, which
    // keeps the proofs of those places short.
    fn drop(self) {
        let Kept {
            caller: _caller,
            standing: _standing,
            waiting: _waiting,
            next_place: _next_place,
            next_call: _next_call,
            turn: _turn,
            next: _next,
            sealing: _sealing,
        } = self;
    }
}

impl Model for Kept {
    ghost use Rattle.logon_stubs.specs.Parts.{FitsText};
    ghost use Rattle.channel_client.specs.Machine.{CanWriteTurn, CanWriteWaiting};
    ghost use Rattle.channel_client.specs.Sealing.{CanSealOn};
    ghost use Rattle.channel_client.specs.State.{Requester};

    ghost Value = { Requester };

    ghost view = { λ c. record { caller = c.caller; standing = c.standing; waiting = c.waiting.items; next_place = c.next_place; next_call = c.next_call; turn = c.turn; next = c.next; sealing = c.sealing } };

    ghost invariant = { λ c. FitsText c.caller.computer × FitsText c.caller.account × CanWriteWaiting c.waiting.items × CanWriteTurn c.turn × CanSealOn c.sealing };
}

impl Kept {
    /// A channel that is none, for which nobody waits: of the account with this secret, which is its NT hash, and this
    /// name of at most 65 units; of this computer in this domain; and of this type (MS-NRPC 2.2.1.3.13). Where it is
    /// one that seals, its calls on the open channel are sealed. `NoMemory` where no memory was found.
    pub(crate) fn new(
        alloc: Global,
        secret: [u8; 16],
        computer: Name,
        account: Units,
        kind: u16,
        domain: Name,
        sealed: bool,
    ) -> Result<Kept, NoMemory>
        requires { length account ≤ 65 }
        ensures { IfOk result
            (λ channel. channel ≡ fresh_channel_of (sealing_for sealed domain computer)
            (record { secret = secret; computer = computer; account = account; kind = kind })) }
    {
        let sealing = sealing_for(alloc, sealed, &domain, &computer)?;
        let mut channel = Kept::plain(alloc, secret, computer, account, kind)?;
        channel.sealing = sealing;
        Ok(channel)
    }

    /// A channel that is made and seals nothing.
    pub(crate) fn plain(
        alloc: Global,
        secret: [u8; 16],
        computer: Name,
        account: Units,
        kind: u16,
    ) -> Result<Kept, NoMemory>
        requires { length account ≤ 65 }
        ensures { IfOk result (λ channel. channel ≡ fresh_requester
            (record { secret = secret; computer = computer; account = account; kind = kind })) }
    {
        // Reading the bytes makes it known that the name has at most 64 bytes.
        let _short = computer.bytes();
        let computer = computer.units(alloc)?;
        let caller = Caller {
            secret,
            computer,
            account,
            kind,
        };
        Ok(Kept {
            caller,
            standing: Standing::Nothing,
            waiting: Vec::new(alloc),
            next_place: 0,
            next_call: 1,
            turn: None,
            next: None,
            sealing: None,
        })
    }

    /// Gives the account another secret, by which the channel is opened. The channel is none, and no turn is out. It
    /// takes no memory.
    pub(crate) fn use_secret(&mut self, secret: [u8; 16])
        requires none { self.old.standing ≡ standing.Nothing }
        requires idle { self.old.turn ≡ None }
        ensures { self.new ≡ use_secret_of self.old secret }
    {
        self.caller.secret = secret;
    }

    /// The secret that the account is to have, or none. While there is one, a turn on the open channel sets it, before
    /// any logon is asked for. No turn is out. It takes no memory.
    pub(crate) fn set_next(&mut self, next: Option<[u8; 16]>)
        requires { self.old.turn ≡ None }
        ensures { self.new ≡ set_next_of self.old next }
    {
        self.next = next;
    }

    /// Lets a logon wait behind those that wait, and gives its place, counted from 0 modulo 2^32, which becomes the
    /// logon's id. A logon in a turn waits too.
    ///
    /// `QueueFull` exactly where 64 wait. It and `Memory` change nothing.
    pub(crate) fn ask(&mut self, logon: NetworkInfo) -> Result<u32, AskRefused>
        requires { CanWriteNetworkInfo logon }
        ensures { AsksBy result (ask_of self.old logon) self.old self.new }
    {
        if self.waiting.len() >= WAITING_LIMIT {
            return Err(AskRefused::QueueFull);
        }
        let place = self.next_place;
        let info = NetworkInfo {
            logon_id: u64::from(place),
            ..logon
        };
        self.waiting.push(Waiting { place, info })?;
        self.next_place = place.wrapping_add(1);
        Ok(place)
    }

    /// Whether a turn that starts draws a challenge: true exactly where the channel is none, or is open and one that
    /// seals. It takes no memory.
    pub(crate) fn needs_challenge(&self) -> bool
        ensures { result ≡ draws_challenge self.now.sealing self.now.standing }
    {
        match &self.sealing {
            None => self.is_none(),
            Some(_) => match &self.standing {
                Standing::Nothing | Standing::Open(_) => true,
                Standing::Half { .. } => false,
            },
        }
    }

    /// Whether the channel is none. It takes no memory.
    pub(crate) fn is_none(&self) -> bool
        ensures { result ≡ needs_challenge self.now.standing }
    {
        match &self.standing {
            Standing::Nothing => true,
            Standing::Half { .. } | Standing::Open(_) => false,
        }
    }

    /// Whether the call of the turn that is out is sealed: true exactly where a turn is out whose call is that of a
    /// logon or of a change, on a channel that seals. It takes no memory.
    pub(crate) fn sealed(&self) -> bool
        ensures { result ≡ is_sealed self.now }
    {
        self.turn.is_some() && is_wire_sealed(&self.sealing, &self.standing)
    }

    /// Opens a sealed unit in its place, before it is read (MS-NRPC 3.3.4.2.2 and 3.3.4.2.4): the bytes from place
    /// `from` to before place `to`, by the signature in the last 32 bytes, which stays. The call of the turn that is
    /// out is sealed. It refuses as `NlSeal` does, and takes no memory.
    pub(crate) fn open(&mut self, unit: &mut [u8], from: usize, to: usize) -> Result<(), NlRefused>
        requires sealed { is_sealed self.old ≡ true }
        requires range { from ≤ to }
        requires within { to + 32 ≤ length unit.old }
        ensures answer { result ≡ (unseal_of self.old unit.old from to).answer }
        ensures unit { unit.new ≡ (unseal_of self.old unit.old from to).unit }
        ensures state { self.new ≡ (unseal_of self.old unit.old from to).state }
    {
        match &mut self.sealing {
            Some(sealing) => sealing.seal.open(unit, from, to),
            None => Ok(()),
        }
    }

    /// Whether a turn can start: true exactly where somebody waits and no turn is out. It takes no memory.
    pub(crate) fn can_start(&self) -> bool
        ensures { result ≡ can_start self.now.turn self.now.waiting }
    {
        self.turn.is_none() && !self.waiting.is_empty()
    }

    /// Starts the turn of the first logon that waits: gives the right to it, and the frames of its bind. Its call is
    /// NetrServerReqChallenge with the challenge where the channel is none, NetrServerAuthenticate2 where both
    /// challenges are known, and where it is open NetrServerPasswordSet of the next secret, where there is one, and
    /// else NetrLogonSamLogon of the logon, with the timestamp. On an open channel that seals, the challenge is the
    /// confounder of the call. Otherwise the challenge isn't looked at, nor is the timestamp.
    ///
    /// None exactly where nobody waits or a turn is out. `NoMemory` where no memory was found; then nothing changes.
    pub(crate) fn start_turn(
        &mut self,
        alloc: Global,
        timestamp: u32,
        challenge: [u8; 8],
    ) -> Result<Option<(Turn, ShortFrames)>, NoMemory>
        ensures answer { IfOk result
            (λ given. given ≡ (channel_start self.old timestamp challenge).answer) }
        ensures state { OnOk result
            (self.new ≡ (channel_start self.old timestamp challenge).state) }
        ensures unchanged { OnErr result (self.new ≡ self.old) }
    {
        match mem::replace(&mut self.sealing, None) {
            None => self.start_plain(alloc, timestamp, challenge),
            Some(sealing) => self.start_sealed(alloc, timestamp, challenge, sealing),
        }
    }

    /// Starts a turn on a channel that seals, whose sealing is handed in and put back.
    fn start_sealed(
        &mut self,
        alloc: Global,
        timestamp: u32,
        challenge: [u8; 8],
        sealing: Sealing,
    ) -> Result<Option<(Turn, ShortFrames)>, NoMemory>
        requires some { 0 < length sealing.bind_value }
        requires few { length sealing.bind_value ≤ 138 }
        ensures answer { IfOk result
            (λ given. given ≡ (start_sealed sealing self.old timestamp challenge).answer) }
        ensures state { OnOk result
            (self.new ≡ (start_sealed sealing self.old timestamp challenge).state) }
        ensures unchanged { OnErr result
            (self.new ≡ record self.old { sealing = Some sealing }) }
    {
        let opened = is_opened(&self.standing);
        match self.begin_sealed(alloc, timestamp, challenge, &sealing.bind_value) {
            Ok(Some(given)) => {
                self.sealing = Some(with_confounder(opened, challenge, sealing));
                Ok(Some(given))
            }
            Ok(None) => {
                self.sealing = Some(sealing);
                Ok(None)
            }
            Err(NoMemory) => {
                self.sealing = Some(sealing);
                Err(NoMemory)
            }
        }
    }

    /// Starts a turn on a channel that seals, but for the sealing, which isn't looked at.
    fn begin_sealed(
        &mut self,
        alloc: Global,
        timestamp: u32,
        challenge: [u8; 8],
        bind_value: &Blob,
    ) -> Result<Option<(Turn, ShortFrames)>, NoMemory>
        requires some { 0 < length bind_value.now }
        requires few { length bind_value.now ≤ 138 }
        ensures answer { IfOk result (λ given. given
            ≡ (sealed_start_of bind_value.now self.old timestamp challenge).answer) }
        ensures state { OnOk result (self.new
            ≡ (sealed_start_of bind_value.now self.old timestamp challenge).state) }
        ensures unchanged { OnErr result (self.new ≡ self.old) }
    {
        if let Some(_) = &self.turn {
            return Ok(None);
        }
        let Some(first) = self.waiting.first() else {
            return Ok(None);
        };
        let place = first.place;
        let frames = sealed_bind_frames(alloc, &self.standing, bind_value, self.next_call)?;
        let step = begin_sealed(
            alloc,
            &mut self.standing,
            self.next,
            &self.caller,
            &first.info,
            timestamp,
            challenge,
        )?;
        self.wait_for(place, step);
        Ok(Some((Turn::new(), frames)))
    }

    /// Starts a turn on a channel that seals nothing.
    pub(crate) fn start_plain(
        &mut self,
        alloc: Global,
        timestamp: u32,
        challenge: [u8; 8],
    ) -> Result<Option<(Turn, ShortFrames)>, NoMemory>
        ensures answer { IfOk result
            (λ given. given ≡ (start_of self.old timestamp challenge).answer) }
        ensures state { OnOk result (self.new ≡ (start_of self.old timestamp challenge).state) }
        ensures unchanged { OnErr result (self.new ≡ self.old) }
    {
        if self.turn.is_some() {
            return Ok(None);
        }
        let Some(first) = self.waiting.first() else {
            return Ok(None);
        };
        let place = first.place;
        let frames = bind_frames(alloc, self.next_call)?;
        let step = begin_with(
            alloc,
            &mut self.standing,
            self.next,
            &self.caller,
            &first.info,
            timestamp,
            challenge,
        )?;
        self.wait_for(place, step);
        Ok(Some((Turn::new(), frames)))
    }

    /// Takes a whole unit that came on the turn's link. `Skip` exactly where its call number isn't the one that the
    /// turn waits for; the right comes back with it, and with `Next`. `Dropped` has the first cause, in the order of
    /// docs/FORMATS.md.
    ///
    /// `Memory` where no memory was found; the right comes back, and nothing changes.
    pub(crate) fn take(
        &mut self,
        alloc: Global,
        turn: Turn,
        unit: &Unit,
    ) -> Result<Taken, TakeRefused>
        ensures answer { IfOk result (λ taken. taken ≡ (channel_take self.old unit.now).taken) }
        ensures state { OnOk result (self.new ≡ (channel_take self.old unit.now).state) }
        ensures unchanged { OnErr result (self.new ≡ self.old) }
        // What is granted can be handed on: it can be written into a stub again, and has its ranges.
        ensures writable { IfOk result (λ taken. IfTaken taken CanWriteSamInfo) }
        ensures range { IfOk result (λ taken. IfTaken taken InRangeSamInfo) }
    {
        match mem::replace(&mut self.sealing, None) {
            None => self.take_plain(alloc, turn, unit),
            Some(sealing) => self.take_sealed(alloc, turn, unit, sealing),
        }
    }

    /// Takes a unit on a channel that seals, whose sealing is handed in and put back.
    fn take_sealed(
        &mut self,
        alloc: Global,
        turn: Turn,
        unit: &Unit,
        sealing: Sealing,
    ) -> Result<Taken, TakeRefused>
        requires { CanSealOn (Some sealing) }
        ensures answer { IfOk result
            (λ taken. taken ≡ (take_sealed sealing self.old unit.now).taken) }
        ensures state { OnOk result (self.new ≡ (take_sealed sealing self.old unit.now).state) }
        ensures unchanged { OnErr result
            (self.new ≡ record self.old { sealing = Some sealing }) }
        ensures writable { IfOk result (λ taken. IfTaken taken CanWriteSamInfo) }
        ensures range { IfOk result (λ taken. IfTaken taken InRangeSamInfo) }
    {
        let mut sealing = sealing;
        match self.hear_sealed(alloc, unit, &mut sealing) {
            Ok(heard) => {
                self.sealing = Some(sealing);
                Ok(self.act_sealed(turn, heard))
            }
            Err(NoMemory) => {
                self.sealing = Some(sealing);
                Err(TakeRefused::Memory(turn))
            }
        }
    }

    /// What a unit comes to for the turn on a channel that seals: on the open one, the frames that go out are sealed.
    #[tactic(auto, using(crate::proofs::SealedGrantLaws::sealed_writable))]
    fn hear_sealed(
        &self,
        alloc: Global,
        unit: &Unit,
        sealing: &mut Sealing,
    ) -> Result<Hearing, NoMemory>
        ensures exact { IfOk result
            (λ heard. heard ≡ (heard_of sealing.old self.now unit.now).0) }
        ensures sealing { OnOk result
            (sealing.new ≡ (heard_of sealing.old self.now unit.now).1) }
        ensures unchanged { OnErr result (sealing.new ≡ sealing.old) }
        ensures bind_value { sealing.new.bind_value ≡ sealing.old.bind_value }
        ensures writable { IfOk result CanWriteHeard }
    {
        match &self.standing {
            Standing::Nothing | Standing::Half { .. } => self.hear(alloc, unit),
            Standing::Open(_) => match self.hear_room(alloc, unit) {
                Ok(heard) => Ok(seal_heard(alloc, sealing, heard)),
                Err(NoMemory) => Err(NoMemory),
            },
        }
    }

    /// What a unit comes to for the turn, with room for signatures in what goes out.
    fn hear_room(&self, alloc: Global, unit: &Unit) -> Result<Hearing, NoMemory>
        ensures exact { IfOk result
            (λ heard. heard ≡ hear_room self.now.turn unit.now self.now.next_call) }
        ensures writable { IfOk result CanWriteHeard }
    {
        match &self.turn {
            Some(pending) if unit.call == pending.number => {
                hear_room_body(alloc, &unit.body, &pending.step, self.next_call)
            }
            _ => Ok(Hearing::Skip),
        }
    }

    /// Does what a unit comes to on a channel that seals.
    #[tactic(auto, using(crate::proofs::SealedGrantLaws::settled_writable, crate::proofs::SealedGrantLaws::settled_range))]
    fn act_sealed(&mut self, turn: Turn, heard: Hearing) -> Taken
        requires { CanWriteHeard heard }
        ensures answer { result ≡ (act_sealed heard self.old).taken }
        ensures state { self.new ≡ (act_sealed heard self.old).state }
        ensures writable { IfTaken result CanWriteSamInfo }
        ensures range { IfTaken result InRangeSamInfo }
    {
        match heard {
            Hearing::Reply(question, reply) => {
                let standing = mem::replace(&mut self.standing, Standing::Nothing);
                let judgement = judge_sealed(question, reply, standing, self.caller.secret);
                self.settle_sealed(judgement)
            }
            Hearing::Skip => self.act(turn, Hearing::Skip),
            Hearing::Next(question, frames) => self.act(turn, Hearing::Next(question, frames)),
            Hearing::Drop(cause) => self.act(turn, Hearing::Drop(cause)),
            Hearing::Set(what) => self.act(turn, Hearing::Set(what)),
        }
    }

    /// Settles a judgement on a channel that seals: as it opens, what seals it begins anew.
    fn settle_sealed(&mut self, judgement: Judgement) -> Taken
        ensures answer { result ≡ (settle_sealed judgement self.old).taken }
        ensures state { self.new ≡ (settle_sealed judgement self.old).state }
    {
        match judgement {
            Judgement::Opened(opened) => {
                self.open_seal(&opened);
                self.settle(Judgement::Opened(opened))
            }
            Judgement::Half(client, server) => self.settle(Judgement::Half(client, server)),
            Judgement::Answer(opened, verdict) => self.settle(Judgement::Answer(opened, verdict)),
            Judgement::Drop(cause) => self.settle(Judgement::Drop(cause)),
        }
    }

    /// What seals the channel begins anew, as it opens.
    fn open_seal(&mut self, opened: &SecureChannel)
        ensures { self.new ≡ record self.old {
          sealing =
              opened_sealing self.old.sealing opened.now;
        } }
    {
        if let Some(sealing) = &mut self.sealing {
            sealing.seal = NlSeal::new(opened.key(), true);
        }
    }

    /// Takes a unit on a channel that seals nothing.
    pub(crate) fn take_plain(
        &mut self,
        alloc: Global,
        turn: Turn,
        unit: &Unit,
    ) -> Result<Taken, TakeRefused>
        ensures answer { IfOk result (λ taken. taken ≡ (take_of self.old unit.now).taken) }
        ensures state { OnOk result (self.new ≡ (take_of self.old unit.now).state) }
        ensures unchanged { OnErr result (self.new ≡ self.old) }
        // What is granted can be handed on: it can be written into a stub again, and has its ranges.
        ensures writable { IfOk result (λ taken. IfTaken taken CanWriteSamInfo) }
        ensures range { IfOk result (λ taken. IfTaken taken InRangeSamInfo) }
    {
        match self.hear(alloc, unit) {
            Ok(heard) => Ok(self.act(turn, heard)),
            Err(_) => Err(TakeRefused::Memory(turn)),
        }
    }

    /// Gives the turn up, for a cause outside of the channel: the first logon waits no more, and the channel is none.
    /// Gives the logon's place. It takes no memory.
    pub(crate) fn lose(&mut self, _turn: Turn, _cause: DropCause) -> u32
        ensures place { result ≡ (lose_of self.old).place }
        ensures state { self.new ≡ (lose_of self.old).state }
    {
        self.give_up()
    }

    /// What a unit comes to for the turn.
    fn hear(&self, alloc: Global, unit: &Unit) -> Result<Hearing, NoMemory>
        ensures exact { IfOk result
            (λ heard. heard ≡ hear self.now.turn unit.now self.now.next_call) }
        ensures writable { IfOk result CanWriteHeard }
    {
        match &self.turn {
            Some(pending) if unit.call == pending.number => {
                hear_body(alloc, &unit.body, &pending.step, self.next_call)
            }
            _ => Ok(Hearing::Skip),
        }
    }

    /// Does what a unit comes to.
    #[tactic(auto, using(crate::proofs::GrantLaws::settled_writable, crate::proofs::GrantLaws::settled_range, crate::proofs::GrantLaws::set_writable, crate::proofs::GrantLaws::set_range))]
    fn act(&mut self, turn: Turn, heard: Hearing) -> Taken
        requires { CanWriteHeard heard }
        ensures answer { result ≡ (act heard self.old).taken }
        ensures state { self.new ≡ (act heard self.old).state }
        ensures writable { IfTaken result CanWriteSamInfo }
        ensures range { IfTaken result InRangeSamInfo }
    {
        match heard {
            Hearing::Skip => Taken::Skip(turn),
            Hearing::Next(question, frames) => {
                let place = self.place();
                self.wait_for(place, Step::Reply(question));
                Taken::Next(turn, frames)
            }
            Hearing::Reply(question, reply) => {
                let standing = mem::replace(&mut self.standing, Standing::Nothing);
                let judgement = judge(question, reply, standing, self.caller.secret);
                self.settle(judgement)
            }
            Hearing::Drop(cause) => self.settle(Judgement::Drop(cause)),
            Hearing::Set(what) => self.act_set(turn, what),
        }
    }

    /// Does what a unit comes to for a turn that sets a secret.
    fn act_set(&mut self, turn: Turn, what: SetHearing) -> Taken
        ensures answer { result ≡ (act_set what self.old).taken }
        ensures state { self.new ≡ (act_set what self.old).state }
    {
        match what {
            SetHearing::Next(frames) => {
                let place = self.place();
                self.wait_for(place, Step::Set(SetStep::Reply));
                Taken::Next(turn, frames)
            }
            SetHearing::Reply(reply) => {
                let standing = mem::replace(&mut self.standing, Standing::Nothing);
                let judged = judge_set(reply, standing);
                self.settle_set(judged)
            }
        }
    }

    /// Settles what came of a change. How the channel stands doesn't matter.
    fn settle_set(&mut self, judged: Result<SecureChannel, DropCause>) -> Taken
        ensures answer { result ≡ (settle_set judged self.old).taken }
        ensures state { self.new ≡ (settle_set judged self.old).state }
    {
        match judged {
            Ok(opened) => {
                self.end_turn(Standing::Open(opened));
                self.next = None;
                Taken::Set
            }
            Err(cause) => self.settle(Judgement::Drop(cause)),
        }
    }

    /// Settles a judgement. How the channel stands doesn't matter.
    fn settle(&mut self, judgement: Judgement) -> Taken
        ensures answer { result ≡ (settle judgement self.old).taken }
        ensures state { self.new ≡ (settle judgement self.old).state }
    {
        match judgement {
            Judgement::Half(client, server) => {
                self.end_turn(Standing::Half { client, server });
                Taken::Half
            }
            Judgement::Opened(opened) => {
                self.end_turn(Standing::Open(opened));
                Taken::Opened
            }
            Judgement::Answer(opened, verdict) => {
                let place = self.place();
                self.remove_first(Standing::Open(opened));
                Taken::Answer(place, verdict)
            }
            Judgement::Drop(cause) => {
                let place = self.give_up();
                Taken::Dropped(place, cause)
            }
        }
    }

    /// The turn of the logon of that place waits for the answer to the bind or request that takes the next number.
    fn wait_for(&mut self, place: u32, step: Step)
        requires { CanWriteStep step }
        ensures { self.new ≡ wait_for self.old place step }
    {
        let number = self.next_call;
        self.turn = Some(Pending {
            number,
            place,
            step,
        });
        self.next_call = number.wrapping_add(1);
    }

    /// The place of the logon that the turn is for; 0 where none is out.
    fn place(&self) -> u32
        ensures { result ≡ place_of self.now.turn }
    {
        match &self.turn {
            Some(pending) => pending.place,
            None => 0,
        }
    }

    /// The first logon waits no more, and the channel is none. Gives the logon's place.
    fn give_up(&mut self) -> u32
        ensures place { result ≡ (lose_of self.old).place }
        ensures state { self.new ≡ (lose_of self.old).state }
    {
        let place = self.place();
        self.remove_first(Standing::Nothing);
        place
    }

    /// The turn ends, and the channel stands as `standing`.
    fn end_turn(&mut self, standing: Standing)
        ensures { self.new ≡ end_turn standing self.old }
    {
        self.standing = standing;
        self.turn = None;
    }

    /// The turn ends, the channel stands as `standing`, and the first logon waits no more.
    fn remove_first(&mut self, standing: Standing)
        ensures { self.new ≡ remove_first standing self.old }
    {
        if !self.waiting.is_empty() {
            let _first = self.waiting.remove(0);
        }
        self.end_turn(standing);
    }
}
