//! The units on the link of a turn of a channel that seals, and how its next turn starts.

ghost use Rattle.std.specs.Prelude.{◌≡◌, ◌≤◌, ◌+◌, ◌&&◌, IfOk, is_ok, length, true};
ghost use Rattle.outside.specs.Drawing.{DrawsSome};
ghost use Rattle.outside.specs.Machine.{AnswersBy};
ghost use Rattle.outside.specs.declared.action.CloseCause.TheVariants as close;
ghost use Rattle.outside.specs.declared.action.DropCause.TheVariants as drop_cause;
ghost use Rattle.rpc_units.specs.Reading.{unit_of};
ghost use Rattle.rpc_units.specs.Views.{body_shown};
ghost use Rattle.end_links.specs.Bounds.{units_in_piece};
ghost use Rattle.logon_stubs.specs.Ranges.{InRangeSamInfo};
ghost use Rattle.logon_stubs.specs.Writing.{CanWriteSamInfo};
ghost use Rattle.channel_sealing.specs.Parts.{IsInUnit};
ghost use Rattle.channel_client.specs.Grants.{IfTaken};
ghost use Rattle.channel_client.specs.Machine.{lose_of};
ghost use Rattle.channel_client.specs.Sealed.{channel_start, channel_take, draws_challenge, is_sealed, unseal_of};
ghost use Rattle.channel_client.specs.declared.answers.Taken.TheVariants as taken;
ghost use Rattle.channel_turns.specs.declared.hearing.Heard.TheVariants as heard;
ghost use Rattle.channel_turns.specs.declared.state.TurnEnd.TheVariants as turn_end;
ghost use Rattle.channel_turns.specs.Dials.{begun};
ghost use Rattle.channel_turns.specs.Hearing.{heard_of};
ghost use Rattle.channel_turns.specs.SealedTurns.{after_sealed_piece, after_unsealing, beside, break_seal, close_of, do_sealed_heard, do_sealed_taken, is_response, next_sealed_dial, next_sealed_turn, reply_part_of, sealed_hear_on, sealed_link_hears, sealed_unit, take_sealed_by, with_sealed_channel};
ghost use Rattle.channel_turns.specs.Turns.{do_taken, end_by, with_channel};

use crate::hearing::{Heard, hear, let_go};
use crate::state::{Dialling, TurnEnd, TurnEnded, TurnTalk, TurnWork, Turning};
use crate::taken_verdict::TakenVerdict;
use crate::turning::{after_piece, dial_for};
use crate::turns::{break_call, break_turn, end_by, end_call, send_request};
use authenticators::timestamp_at;
use channel_client::{PlainChannel, ShortFrames, TakeRefused, Taken, Turn};
use channel_sealing::{SealedPart, sealed_part};
use end_links::{Link, ServesUnits, serve_piece};
use outside::{Chances, CloseCause, DropCause, Spent, StepRefused};
use rpc_units::{BodyView, Joiner, Unit, UnitRefused, view_unit};
use std::alloc::Global;
use wire_base::{Blob, NoMemory};

/// A channel that seals at work on the link of its turn, and whether that link is sealed by now.
#[derive(Drop)]
pub struct SealedWork {
    pub work: TurnWork,
    pub is_link_sealed: bool,
}

/// What a unit came to, and whether the link is sealed then.
fn beside(
    is_link_sealed: bool,
    served: (TurnWork, Option<TurnTalk>),
) -> (SealedWork, Option<TurnTalk>)
    ensures { result ≡ beside is_link_sealed served }
{
    let (work, said) = served;
    let at = SealedWork {
        work,
        is_link_sealed,
    };
    (at, said)
}

// ---- what of a unit is opened

/// The channel at work, and whether the call of its turn is sealed. It takes no memory.
fn with_seal(work: TurnWork) -> (TurnWork, bool)
    ensures { result ≡ (work, is_sealed work.channel) }
{
    let TurnWork {
        link,
        channel,
        actions,
        ended,
    } = work;
    let channel = channel.into_channel();
    let sealed = channel.sealed();
    let work = TurnWork {
        link,
        channel: channel.into_plain(),
        actions,
        ended,
    };
    (work, sealed)
}

/// Whether responses are to be sealed by now.
fn with_need(at: SealedWork) -> (SealedWork, bool)
    ensures answer { result ≡ (at, at.is_link_sealed && is_sealed at.work.channel) }
    ensures sealed { result.1 ≡ true → is_sealed at.work.channel ≡ true }
{
    let SealedWork {
        work,
        is_link_sealed,
    } = at;
    let (work, sealed) = with_seal(work);
    let at = SealedWork {
        work,
        is_link_sealed,
    };
    (at, is_link_sealed && sealed)
}

/// Whether a body is that of a response.
fn is_response(body: &BodyView<'_>) -> bool
    ensures { result ≡ is_response (body_shown body.now) }
{
    match body {
        BodyView::Response { .. } => true,
        BodyView::Request { .. }
        | BodyView::Bind { .. }
        | BodyView::BindAck { .. }
        | BodyView::BindNak(_)
        | BodyView::Auth3
        | BodyView::Fault { .. } => false,
    }
}

/// What of a unit is opened on a sealed link: of a response that which is sealed.
fn reply_part(bytes: &[u8]) -> SealedPart
    ensures value { result ≡ reply_part_of true bytes.now }
    ensures inside { IsInUnit bytes.now result }
{
    let Ok(view) = view_unit(bytes) else {
        return SealedPart::Nothing;
    };
    if !is_response(&view.body) {
        return SealedPart::Nothing;
    }
    sealed_part(bytes)
}

// ---- what the channel makes of a unit

/// For which cause the link closes where the turn is lost for that one.
fn close_of(cause: DropCause) -> CloseCause
    ensures { result ≡ close_of cause }
{
    match cause {
        DropCause::BadSeal => CloseCause::BadAuthentication,
        DropCause::QueueFull
        | DropCause::DialFailed
        | DropCause::LinkClosed
        | DropCause::Bind
        | DropCause::Fault(_)
        | DropCause::NotNext
        | DropCause::Denied
        | DropCause::BadReply => CloseCause::CallDone,
    }
}

/// The channel dropped the turn, and the fragments of an open reply are let go.
fn end_dropped(
    place: u32,
    cause: DropCause,
    joiner: Joiner,
    work: TurnWork,
) -> (TurnWork, Option<TurnTalk>)
    ensures { result ≡ end_by (close_of cause) (turn_end.Dropped place cause) work }
{
    drop(joiner);
    end_by(close_of(cause), TurnEnd::Dropped(place, cause), work)
}

/// The request of the turn goes out in these frames; behind it the link is sealed, where the call is.
fn send_next(
    alloc: Global,
    turn: Turn,
    frames: &ShortFrames,
    joiner: Joiner,
    work: TurnWork,
) -> Result<(SealedWork, Option<TurnTalk>), NoMemory>
    ensures { IfOk result (λ served. served
        ≡ beside (is_sealed work.channel) (do_taken (taken.Next turn frames.now) joiner work)) }
{
    let (work, sealed) = with_seal(work);
    match send_request(alloc, turn, frames, joiner, work) {
        Ok(served) => Ok(beside(sealed, served)),
        Err(NoMemory) => Err(NoMemory),
    }
}

/// What comes of a unit that the channel took.
fn do_sealed_taken(
    alloc: Global,
    taken: Taken,
    joiner: Joiner,
    at: SealedWork,
) -> Result<(SealedWork, Option<TurnTalk>), NoMemory>
    requires writable { IfTaken taken CanWriteSamInfo }
    requires range { IfTaken taken InRangeSamInfo }
    ensures { IfOk result (λ served. served ≡ do_sealed_taken taken joiner at) }
{
    let SealedWork {
        work,
        is_link_sealed: sealed,
    } = at;
    match taken {
        Taken::Skip(turn) => Ok(beside(sealed, (work, Some(TurnTalk { joiner, turn })))),
        Taken::Next(turn, frames) => send_next(alloc, turn, &frames, joiner, work),
        Taken::Half => Ok(beside(sealed, end_call(TurnEnd::Half, joiner, work))),
        Taken::Opened => Ok(beside(sealed, end_call(TurnEnd::Opened, joiner, work))),
        Taken::Answer(place, verdict) => {
            let verdict = TakenVerdict::new(verdict);
            Ok(beside(
                sealed,
                end_call(TurnEnd::Answer(place, verdict), joiner, work),
            ))
        }
        Taken::Dropped(place, cause) => {
            Ok(beside(sealed, end_dropped(place, cause, joiner, work)))
        }
        Taken::Set => Ok(beside(sealed, end_call(TurnEnd::Set, joiner, work))),
    }
}

/// A whole unit is taken, and let go.
fn take(
    alloc: Global,
    unit: Unit,
    turn: Turn,
    joiner: Joiner,
    at: SealedWork,
) -> Result<(SealedWork, Option<TurnTalk>), NoMemory>
    ensures { IfOk result
        (λ served. served ≡ take_sealed_by (channel_take at.work.channel unit) joiner at) }
{
    let SealedWork {
        work,
        is_link_sealed,
    } = at;
    let TurnWork {
        link,
        channel,
        actions,
        ended,
    } = work;
    let mut channel = channel.into_channel();
    match channel.take(alloc, turn, &unit) {
        Ok(taken) => {
            let work = TurnWork {
                link,
                channel: channel.into_plain(),
                actions,
                ended,
            };
            let at = SealedWork {
                work,
                is_link_sealed,
            };
            do_sealed_taken(alloc, taken, joiner, at)
        }
        Err(TakeRefused::Memory(_)) => Err(let_go(joiner)),
    }
}

/// The unit that was heard is refused: the turn is lost.
fn break_heard(cause: CloseCause, turn: Turn, at: SealedWork) -> (SealedWork, Option<TurnTalk>)
    ensures { result ≡ do_sealed_heard (heard.Broken cause) at }
{
    let SealedWork {
        work,
        is_link_sealed,
    } = at;
    beside(is_link_sealed, break_turn(cause, turn, work))
}

/// What comes of a unit that was heard.
fn do_sealed_heard(
    alloc: Global,
    heard: Heard,
    turn: Turn,
    at: SealedWork,
) -> Result<(SealedWork, Option<TurnTalk>), NoMemory>
    ensures { IfOk result (λ served. served ≡ do_sealed_heard heard at) }
{
    match heard {
        Heard::Waits(joiner) => Ok((at, Some(TurnTalk { joiner, turn }))),
        Heard::Whole(unit, joiner) => take(alloc, unit, turn, joiner, at),
        Heard::Broken(cause) => Ok(break_heard(cause, turn, at)),
    }
}

/// A unit in the clear, or one that was opened.
fn hear_unit(
    alloc: Global,
    bytes: &[u8],
    talk: TurnTalk,
    at: SealedWork,
) -> Result<(SealedWork, Option<TurnTalk>), NoMemory>
    ensures { IfOk result (λ served. served
        ≡ do_sealed_heard (heard_of (unit_of bytes.now) talk.joiner) at) }
{
    let TurnTalk { joiner, turn } = talk;
    match hear(alloc, bytes, joiner) {
        Ok(heard) => do_sealed_heard(alloc, heard, turn, at),
        Err(NoMemory) => Err(NoMemory),
    }
}

// ---- a unit, by what of it is opened

/// A response that isn't sealed as it is to be loses the turn; the fragments of an open reply are let go. It takes no
/// memory.
fn break_seal(talk: TurnTalk, at: SealedWork) -> (SealedWork, Option<TurnTalk>)
    ensures { result ≡ break_seal at }
{
    let TurnTalk { joiner, turn } = talk;
    drop(joiner);
    let SealedWork {
        work,
        is_link_sealed,
    } = at;
    beside(is_link_sealed, lose_sealed(turn, work))
}

/// The turn is lost since a response isn't sealed as it is to be.
fn lose_sealed(turn: Turn, work: TurnWork) -> (TurnWork, Option<TurnTalk>)
    ensures { result ≡ end_by close.BadAuthentication
        (turn_end.Dropped (lose_of work.channel).place drop_cause.BadSeal)
        (with_channel (lose_of work.channel).state work) }
{
    let TurnWork {
        link,
        mut channel,
        actions,
        ended,
    } = work;
    let place = channel.lose(turn, DropCause::BadSeal);
    let work = TurnWork {
        link,
        channel,
        actions,
        ended,
    };
    end_by(
        CloseCause::BadAuthentication,
        TurnEnd::Dropped(place, DropCause::BadSeal),
        work,
    )
}

/// Opens a response in its place: whether that is done.
fn open_reply(bytes: &mut [u8], from: usize, to: usize, at: SealedWork) -> (SealedWork, bool)
    requires sealed { is_sealed at.work.channel ≡ true }
    requires range { from ≤ to }
    requires within { to + 32 ≤ length bytes.old }
    ensures len { length bytes.new ≡ length bytes.old }
    ensures answer { result.1 ≡ is_ok (unseal_of at.work.channel bytes.old from to).answer }
    ensures bytes { bytes.new ≡ (unseal_of at.work.channel bytes.old from to).unit }
    ensures state { result.0
        ≡ with_sealed_channel (unseal_of at.work.channel bytes.old from to).state at }
{
    let SealedWork {
        work,
        is_link_sealed,
    } = at;
    let TurnWork {
        link,
        channel,
        actions,
        ended,
    } = work;
    let mut channel = channel.into_channel();
    let done = channel.open(bytes, from, to).is_ok();
    let work = TurnWork {
        link,
        channel: channel.into_plain(),
        actions,
        ended,
    };
    let at = SealedWork {
        work,
        is_link_sealed,
    };
    (at, done)
}

/// A response is opened, and then heard.
#[tactic(auto, using(crate::proofs::SealedLaws::opening))]
fn hear_opened(
    alloc: Global,
    bytes: &mut [u8],
    from: usize,
    to: usize,
    talk: TurnTalk,
    at: SealedWork,
) -> Result<(SealedWork, Option<TurnTalk>), NoMemory>
    requires sealed { is_sealed at.work.channel ≡ true }
    requires range { from ≤ to }
    requires within { to + 32 ≤ length bytes.old }
    ensures len { length bytes.new ≡ length bytes.old }
    ensures value { IfOk result (λ served. served
        ≡ after_unsealing (unseal_of at.work.channel bytes.old from to) talk.joiner at) }
{
    let (at, done) = open_reply(bytes, from, to, at);
    if !done {
        return Ok(break_seal(talk, at));
    }
    hear_unit(alloc, bytes, talk, at)
}

/// A unit on the link of the turn.
fn sealed_unit(
    alloc: Global,
    bytes: &mut [u8],
    talk: TurnTalk,
    at: SealedWork,
) -> Result<(SealedWork, Option<TurnTalk>), NoMemory>
    ensures len { length bytes.new ≡ length bytes.old }
    ensures value { IfOk result (λ served. served ≡ sealed_unit bytes.old talk.joiner at) }
{
    let (at, is_sealed) = with_need(at);
    if !is_sealed {
        return hear_unit(alloc, bytes, talk, at);
    }
    match reply_part(bytes) {
        SealedPart::Nothing => hear_unit(alloc, bytes, talk, at),
        SealedPart::Range(from, to) => hear_opened(alloc, bytes, from, to, talk, at),
        SealedPart::Missing => Ok(break_seal(talk, at)),
    }
}

impl ServesUnits<TurnTalk> for SealedWork {
    ghost use Rattle.channel_turns.specs.Rests.{sealed_turn_few, sealed_turn_leaves};
    ghost use Rattle.channel_turns.specs.SealedTurns.{sealed_turn_server};

    ghost server = { sealed_turn_server };

    ghost extra = { λ talk. 0 };

    #[tactic(auto, using(crate::proofs::DrawLaws::drawing))]
    fn serve<Q: Chances>(
        self,
        alloc: Global,
        bytes: &mut [u8],
        talk: TurnTalk,
        _chances: &mut Q,
    ) -> Result<(SealedWork, Option<TurnTalk>), StepRefused> {
        match sealed_unit(alloc, bytes, talk, self) {
            Ok(served) => Ok(served),
            Err(NoMemory) => Err(StepRefused::Memory),
        }
    }

    #[tactic(auto, using(crate::proofs::DrawLaws::drawing))]
    fn refuse<Q: Chances>(
        self,
        _alloc: Global,
        _why: UnitRefused,
        talk: TurnTalk,
        _chances: &mut Q,
    ) -> Result<SealedWork, StepRefused> {
        let SealedWork {
            work,
            is_link_sealed,
        } = self;
        let (at, _) = beside(is_link_sealed, break_call(CloseCause::BadUnit, talk, work));
        Ok(at)
    }

    ghost leaves = { sealed_turn_leaves };

    ghost few = { sealed_turn_few };
}

// ---- a piece that comes on the link

/// The link of the turn, where the turn is still out, how it ended, where it did, and whether the link is sealed.
fn after_sealed_piece(
    number: u32,
    at: SealedWork,
    still: Option<Link<TurnTalk>>,
) -> ((Turning, Option<TurnEnded>), bool)
    ensures { result ≡ after_sealed_piece number (at, still) }
{
    let SealedWork {
        work,
        is_link_sealed,
    } = at;
    (after_piece(number, work, still), is_link_sealed)
}

/// Bytes came on the link of the turn.
#[tactic(auto, using(crate::proofs::SealedLaws::hearing))]
fn serve_on<Q: Chances>(
    alloc: Global,
    number: u32,
    said: Link<TurnTalk>,
    piece: &[u8],
    at: SealedWork,
    chances: &mut Q,
) -> Result<((Turning, Option<TurnEnded>), bool), StepRefused>
    ensures draws { DrawsSome (Q.drawing chances.old) (Q.drawing chances.new) }
    ensures answer { AnswersBy result
        (sealed_hear_on number said piece.now at (Q.drawing chances.old).left)
        (Q.drawing chances.new).left }
    ensures few { length (Q.drawing chances.old).left
        ≤ length (Q.drawing chances.new).left + units_in_piece (length piece.now) }
{
    match serve_piece(alloc, at, said, piece, chances) {
        Ok((at, still)) => Ok(after_sealed_piece(number, at, still)),
        Err(why) => Err(why),
    }
}

/// Bytes came on a link: where it is the link of the turn, its units are served, and no turn is out where it ended.
/// Besides, whether the link is sealed by then, where it was so before. The channel is one that seals, or else nothing
/// is sealed. A response on a sealed link is opened in its place; one that isn't sealed as it is to be loses the turn,
/// and its link closes with `BadAuthentication`.
///
/// `Memory` where no memory was found.
#[tactic(auto, using(crate::proofs::SealedLaws::hearing))]
pub fn sealed_link_hears<Q: Chances>(
    alloc: Global,
    link: u32,
    piece: &[u8],
    is_link_sealed: bool,
    turning: Turning,
    chances: &mut Q,
) -> Result<((Turning, Option<TurnEnded>), bool), StepRefused>
    ensures draws { DrawsSome (Q.drawing chances.old) (Q.drawing chances.new) }
    ensures answer { AnswersBy result
        (sealed_link_hears link piece.now is_link_sealed turning (Q.drawing chances.old).left)
        (Q.drawing chances.new).left }
    ensures few { length (Q.drawing chances.old).left
        ≤ length (Q.drawing chances.new).left + units_in_piece (length piece.now) }
{
    let Turning {
        channel,
        dialling,
        actions,
    } = turning;
    match dialling {
        Dialling::On(number, said) if number == link => {
            let work = TurnWork {
                link: number,
                channel,
                actions,
                ended: None,
            };
            let at = SealedWork {
                work,
                is_link_sealed,
            };
            serve_on(alloc, number, said, piece, at, chances)
        }
        dialling => {
            let turning = Turning {
                channel,
                dialling,
                actions,
            };
            Ok(((turning, None), is_link_sealed))
        }
    }
}

// ---- the next turn

/// The turn of the first logon that waits starts with these.
fn start(
    alloc: Global,
    timestamp: u32,
    challenge: [u8; 8],
    channel: PlainChannel,
) -> Result<(PlainChannel, Option<(Turn, ShortFrames)>), NoMemory>
    ensures { IfOk result (λ next. next ≡ begun (channel_start channel timestamp challenge)) }
{
    let mut channel = channel.into_channel();
    match channel.start_turn(alloc, timestamp, challenge) {
        Ok(started) => Ok((channel.into_plain(), started)),
        Err(NoMemory) => Err(NoMemory),
    }
}

/// The channel, and whether a turn of it that starts draws a challenge.
fn with_draw(channel: PlainChannel) -> (PlainChannel, bool)
    ensures { result ≡ (channel, draws_challenge channel.sealing channel.standing) }
{
    let channel = channel.into_channel();
    let draws = channel.needs_challenge();
    (channel.into_plain(), draws)
}

/// The next turn of a channel that seals, where one can start.
#[tactic(auto, using(crate::proofs::DrawLaws::drawing))]
fn next_sealed_turn<Q: Chances>(
    alloc: Global,
    now: u64,
    channel: PlainChannel,
    chances: &mut Q,
) -> Result<(PlainChannel, Option<(Turn, ShortFrames)>), StepRefused>
    ensures draws { DrawsSome (Q.drawing chances.old) (Q.drawing chances.new) }
    ensures answer { AnswersBy result
        (next_sealed_turn now channel (Q.drawing chances.old).left)
        (Q.drawing chances.new).left }
    ensures few { length (Q.drawing chances.old).left ≤ length (Q.drawing chances.new).left + 1 }
{
    if !channel.can_start() {
        return Ok((channel, None));
    }
    let (channel, draws) = with_draw(channel);
    if !draws {
        return match start(alloc, timestamp_at(now), [0; 8], channel) {
            Ok(next) => Ok(next),
            Err(NoMemory) => Err(StepRefused::Memory),
        };
    }
    let challenge = match chances.next() {
        Ok(challenge) => challenge,
        Err(Spent) => return Err(StepRefused::Spent),
    };
    match start(alloc, timestamp_at(now), challenge, channel) {
        Ok(next) => Ok(next),
        Err(NoMemory) => Err(StepRefused::Memory),
    }
}

/// The next dial, as `next_dial` gives it, of a channel that seals: a turn on the open channel draws the confounder of
/// its call.
///
/// `Spent` exactly where a turn can start, the channel needs a challenge and none is left; `Memory` where no memory was
/// found.
#[tactic(auto, using(crate::proofs::SealedLaws::dialling))]
pub fn next_sealed_dial<Q: Chances>(
    alloc: Global,
    now: u64,
    peer: &Blob,
    turning: Turning,
    chances: &mut Q,
) -> Result<Turning, StepRefused>
    ensures draws { DrawsSome (Q.drawing chances.old) (Q.drawing chances.new) }
    ensures answer { AnswersBy result
        (next_sealed_dial now peer.now turning (Q.drawing chances.old).left)
        (Q.drawing chances.new).left }
    ensures few { length (Q.drawing chances.old).left ≤ length (Q.drawing chances.new).left + 1 }
{
    let Turning {
        channel,
        dialling,
        actions,
    } = turning;
    let (channel, started) = match next_sealed_turn(alloc, now, channel, chances) {
        Ok(next) => next,
        Err(why) => {
            drop(dialling);
            return Err(why);
        }
    };
    let turning = Turning {
        channel,
        dialling,
        actions,
    };
    match dial_for(alloc, started, peer, turning) {
        Ok(turning) => Ok(turning),
        Err(NoMemory) => Err(StepRefused::Memory),
    }
}
