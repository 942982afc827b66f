//! The units on the link of a turn.

ghost use Rattle.std.specs.Prelude.{◌≡◌, ◌++◌, IfOk};
ghost use Rattle.outside.specs.declared.action.Action.TheVariants as action;
ghost use Rattle.outside.specs.declared.action.CloseCause.TheVariants as close;
ghost use Rattle.rpc_units.specs.Reading.{unit_of};
ghost use Rattle.end_links.specs.Sending.{joined_frames};
ghost use Rattle.logon_stubs.specs.Ranges.{InRangeSamInfo};
ghost use Rattle.logon_stubs.specs.Writing.{CanWriteSamInfo};
ghost use Rattle.channel_client.specs.Grants.{IfTaken};
ghost use Rattle.channel_client.specs.Machine.{take_of};
ghost use Rattle.channel_client.specs.declared.answers.Taken.TheVariants as taken;
ghost use Rattle.channel_turns.specs.Turns.{tell, end_by, break_turn, do_taken, take_by, do_heard, turn_unit, serve_turn};

use crate::hearing::{Heard, hear, let_go};
use crate::state::{TurnEnd, TurnEnded, TurnTalk, TurnWork};
use crate::taken_verdict::TakenVerdict;
use channel_client::{ShortFrames, TakeRefused, Taken, Turn};
use end_links::{Link, ServesUnits, serve_piece};
use outside::{Action, Chances, CloseCause, DropCause, StepRefused};
use rpc_units::{Joiner, Unit, UnitRefused};
use std::alloc::Global;
use wire_base::NoMemory;

// ---- how a turn ends

/// The turn ended so, and its link is to be closed for this cause. It takes no memory.
pub(crate) fn end_by(cause: CloseCause, how: TurnEnd, at: TurnWork) -> (TurnWork, Option<TurnTalk>)
    ensures { result ≡ end_by cause how at }
{
    let TurnWork {
        link,
        channel,
        actions,
        ended: _earlier,
    } = at;
    let at = TurnWork {
        link,
        channel,
        actions,
        ended: Some(TurnEnded {
            closes: Some((link, cause)),
            how,
        }),
    };
    (at, None)
}

/// A unit that is refused loses the turn. It takes no memory.
pub(crate) fn break_turn(
    cause: CloseCause,
    turn: Turn,
    at: TurnWork,
) -> (TurnWork, Option<TurnTalk>)
    ensures { result ≡ break_turn cause at }
{
    let TurnWork {
        link,
        mut channel,
        actions,
        ended,
    } = at;
    let place = channel.lose(turn, DropCause::BadReply);
    let at = TurnWork {
        link,
        channel,
        actions,
        ended,
    };
    end_by(cause, TurnEnd::Dropped(place, DropCause::BadReply), at)
}

/// The turn ends without an answer, and the fragments of an open reply are let go.
pub(crate) fn break_call(
    cause: CloseCause,
    talk: TurnTalk,
    at: TurnWork,
) -> (TurnWork, Option<TurnTalk>)
    ensures { result ≡ break_turn cause at }
{
    let TurnTalk { joiner, turn } = talk;
    drop(joiner);
    break_turn(cause, turn, at)
}

// ---- what the channel makes of a unit

/// The request of the turn goes out in these frames.
pub(crate) fn send_request(
    alloc: Global,
    turn: Turn,
    frames: &ShortFrames,
    joiner: Joiner,
    at: TurnWork,
) -> Result<(TurnWork, Option<TurnTalk>), NoMemory>
    ensures { IfOk result (λ served. served ≡ do_taken (taken.Next turn frames.now) joiner at) }
{
    match send_frames(alloc, frames, at) {
        Ok(at) => Ok((at, Some(TurnTalk { joiner, turn }))),
        Err(NoMemory) => Err(let_go(joiner)),
    }
}

/// Sends the frames on the link.
fn send_frames(alloc: Global, frames: &ShortFrames, at: TurnWork) -> Result<TurnWork, NoMemory>
    ensures { IfOk result
        (λ sent. sent ≡ tell (action.Send at.link (joined_frames frames.now)) at) }
{
    let TurnWork {
        link,
        channel,
        mut actions,
        ended,
    } = at;
    let bytes = match frames.join(alloc) {
        Ok(bytes) => bytes,
        Err(NoMemory) => return Err(NoMemory),
    };
    match actions.push(Action::Send(link, bytes)) {
        Ok(()) => Ok(TurnWork {
            link,
            channel,
            actions,
            ended,
        }),
        Err(NoMemory) => Err(NoMemory),
    }
}

/// What comes of a unit that the channel took.
fn do_taken(
    alloc: Global,
    taken: Taken,
    joiner: Joiner,
    at: TurnWork,
) -> Result<(TurnWork, Option<TurnTalk>), NoMemory>
    requires writable { IfTaken taken CanWriteSamInfo }
    requires range { IfTaken taken InRangeSamInfo }
    ensures { IfOk result (λ served. served ≡ do_taken taken joiner at) }
{
    match taken {
        Taken::Skip(turn) => Ok((at, Some(TurnTalk { joiner, turn }))),
        Taken::Next(turn, frames) => send_request(alloc, turn, &frames, joiner, at),
        Taken::Half => Ok(end_call(TurnEnd::Half, joiner, at)),
        Taken::Opened => Ok(end_call(TurnEnd::Opened, joiner, at)),
        Taken::Answer(place, verdict) => {
            let verdict = TakenVerdict::new(verdict);
            Ok(end_call(TurnEnd::Answer(place, verdict), joiner, at))
        }
        Taken::Dropped(place, cause) => Ok(end_call(TurnEnd::Dropped(place, cause), joiner, at)),
        Taken::Set => Ok(end_call(TurnEnd::Set, joiner, at)),
    }
}

/// The turn is done, and the fragments of an open reply are let go.
pub(crate) fn end_call(how: TurnEnd, joiner: Joiner, at: TurnWork) -> (TurnWork, Option<TurnTalk>)
    ensures { result ≡ end_by close.CallDone how at }
{
    drop(joiner);
    end_by(CloseCause::CallDone, how, at)
}

/// A whole unit is taken, and let go.
fn take(
    alloc: Global,
    unit: Unit,
    turn: Turn,
    joiner: Joiner,
    at: TurnWork,
) -> Result<(TurnWork, Option<TurnTalk>), NoMemory>
    ensures { IfOk result (λ served. served ≡ take_by (take_of at.channel unit) joiner at) }
{
    let TurnWork {
        link,
        mut channel,
        actions,
        ended,
    } = at;
    match channel.take(alloc, turn, &unit) {
        Ok(taken) => {
            let at = TurnWork {
                link,
                channel,
                actions,
                ended,
            };
            do_taken(alloc, taken, joiner, at)
        }
        Err(TakeRefused::Memory(_)) => Err(let_go(joiner)),
    }
}

/// What comes of a unit that was heard.
fn do_heard(
    alloc: Global,
    heard: Heard,
    turn: Turn,
    at: TurnWork,
) -> Result<(TurnWork, Option<TurnTalk>), NoMemory>
    ensures { IfOk result (λ served. served ≡ do_heard heard at) }
{
    match heard {
        Heard::Waits(joiner) => Ok((at, Some(TurnTalk { joiner, turn }))),
        Heard::Whole(unit, joiner) => take(alloc, unit, turn, joiner, at),
        Heard::Broken(cause) => Ok(break_turn(cause, turn, at)),
    }
}

/// A unit on the link of the turn.
fn turn_unit(
    alloc: Global,
    bytes: &[u8],
    talk: TurnTalk,
    at: TurnWork,
) -> Result<(TurnWork, Option<TurnTalk>), NoMemory>
    ensures { IfOk result (λ served. served ≡ turn_unit (unit_of bytes.now) talk.joiner at) }
{
    let TurnTalk { joiner, turn } = talk;
    match hear(alloc, bytes, joiner) {
        Ok(heard) => do_heard(alloc, heard, turn, at),
        Err(NoMemory) => Err(NoMemory),
    }
}

impl ServesUnits<TurnTalk> for TurnWork {
    ghost use Rattle.channel_turns.specs.Turns.{turn_server};
    ghost use Rattle.channel_turns.specs.Rests.{turn_few, turn_leaves};

    ghost server = { turn_server };

    ghost extra = { λ talk. 0 };

    #[tactic(auto, using(crate::proofs::DrawLaws::drawing))]
    fn serve<Q: Chances>(
        self,
        alloc: Global,
        bytes: &mut [u8],
        talk: TurnTalk,
        _chances: &mut Q,
    ) -> Result<(TurnWork, Option<TurnTalk>), StepRefused> {
        match turn_unit(alloc, bytes, talk, self) {
            Ok(served) => Ok(served),
            Err(NoMemory) => Err(StepRefused::Memory),
        }
    }

    #[tactic(auto, using(crate::proofs::DrawLaws::drawing))]
    fn refuse<Q: Chances>(
        self,
        _alloc: Global,
        _why: UnitRefused,
        talk: TurnTalk,
        _chances: &mut Q,
    ) -> Result<TurnWork, StepRefused> {
        let (at, _) = break_call(CloseCause::BadUnit, talk, self);
        Ok(at)
    }

    ghost leaves = { turn_leaves };

    ghost few = { turn_few };
}

/// The units of the link of a turn with the piece that comes on it, one after the other: the channel afterwards, with
/// the actions and how the turn ended, where it did; and the link, where the turn is still out. Where `at` has no end
/// of a turn from before, exactly one of the two is there. A turn that ends leaves its link to be closed by the caller,
/// before anything else that follows of it. No challenge is drawn. `NoMemory` where no memory was found.
#[tactic(auto, using(crate::proofs::ServedLaws::serving))]
pub fn serve_turn<Q: Chances>(
    alloc: Global,
    at: TurnWork,
    said: Link<TurnTalk>,
    piece: &[u8],
    chances: &mut Q,
) -> Result<(TurnWork, Option<Link<TurnTalk>>), NoMemory>
    ensures value { IfOk result (λ served. served ≡ serve_turn at said piece.now) }
    ensures undrawn { Q.drawing chances.new ≡ Q.drawing chances.old }
{
    match serve_piece(alloc, at, said, piece, chances) {
        Ok(served) => Ok(served),
        Err(_) => Err(NoMemory),
    }
}
