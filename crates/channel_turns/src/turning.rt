//! What events are for the link of a turn.

ghost use Rattle.std.specs.Prelude.{◌≡◌, ◌≤◌, ◌+◌, length, IfOk};
ghost use Rattle.outside.specs.Drawing.{DrawsSome};
ghost use Rattle.outside.specs.Machine.{AnswersBy};
ghost use Rattle.end_links.specs.Links.{open_limit};
ghost use Rattle.channel_turns.specs.declared.state.Dialling.TheVariants as dialling;
ghost use Rattle.channel_turns.specs.Turning.{after_piece, bytes_of, dial_for, drop_turn, hear_on, is_on, is_waiting, link_answers, link_closes, link_hears, next_dial, no_dial, send_dial, want_of};
ghost use Rattle.rpc_units.specs.Stream.{rest_limit};

use crate::dials::{bind_turn, lose_turn, next_turn};
use crate::state::{Dialling, TurnEnded, TurnTalk, TurnWork, Turning};
use crate::turns::serve_turn;
use channel_client::{PlainChannel, ShortFrames, Turn};
use end_links::{Link, ShortActions};
use outside::{Action, Chances, DropCause, StepRefused};
use std::alloc::Global;
use wire_base::{Blob, NoMemory};

impl Dialling {
    /// The link that the end waits for. It takes no memory, nor do the next calls.
    pub fn wants(&self) -> Option<u32>
        ensures { result ≡ want_of self.now }
    {
        match self {
            Dialling::On(number, _) => Some(*number),
            Dialling::Nothing | Dialling::Waits(_, _) => None,
        }
    }

    /// Whether that is the link of the turn.
    pub fn is_on(&self, link: u32) -> bool
        ensures { result ≡ is_on link self.now }
    {
        match self {
            Dialling::On(number, _) => *number == link,
            Dialling::Nothing | Dialling::Waits(_, _) => false,
        }
    }

    /// Whether the dial of a turn waits.
    pub fn is_waiting(&self) -> bool
        ensures { result ≡ is_waiting self.now }
    {
        match self {
            Dialling::Waits(_, _) => true,
            Dialling::Nothing | Dialling::On(_, _) => false,
        }
    }

    /// The bytes that the link holds: the rest of its stream, and the stub bytes of an open reply.
    pub fn held(&self) -> u64
        ensures count { result ≡ bytes_of self.now }
        ensures most { result ≤ rest_limit + open_limit }
    {
        match self {
            Dialling::On(_, said) => (said.rest_len() + said.talk().joiner.len()) as u64,
            Dialling::Nothing | Dialling::Waits(_, _) => 0,
        }
    }
}

// ---- the link opens and closes

/// A dial was answered by this link: where it is the dial of a turn, the bind goes out there. An end closes an accepted
/// link of that number before. `NoMemory` where no memory was found.
pub fn link_answers(alloc: Global, link: u32, turning: Turning) -> Result<Turning, NoMemory>
    ensures { IfOk result (λ answered. answered ≡ link_answers link turning) }
{
    let Turning {
        channel,
        dialling,
        actions,
    } = turning;
    match dialling {
        Dialling::Waits(turn, frames) => {
            answer_dial(alloc, turn, &frames, link, channel, actions)
        }
        dialling => Ok(Turning {
            channel,
            dialling,
            actions,
        }),
    }
}

/// The bind goes out.
fn answer_dial(
    alloc: Global,
    turn: Turn,
    frames: &ShortFrames,
    link: u32,
    channel: PlainChannel,
    actions: ShortActions,
) -> Result<Turning, NoMemory>
    ensures { IfOk result (λ answered. answered ≡ link_answers link (record {
      channel = channel;
      dialling = dialling.Waits turn frames.now;
      actions = actions;
    })) }
{
    match bind_turn(alloc, turn, frames, link, actions) {
        Ok((actions, said)) => Ok(Turning {
            channel,
            dialling: Dialling::On(link, said),
            actions,
        }),
        Err(NoMemory) => Err(NoMemory),
    }
}

/// A dial failed: where it is the dial of a turn, the turn is lost. It takes no memory.
pub fn no_dial(turning: Turning) -> (Turning, Option<TurnEnded>)
    ensures { result ≡ no_dial turning }
{
    let Turning {
        channel,
        dialling,
        actions,
    } = turning;
    match dialling {
        Dialling::Waits(turn, _frames) => drop_turn(DropCause::DialFailed, turn, channel, actions),
        dialling => {
            let turning = Turning {
                channel,
                dialling,
                actions,
            };
            (turning, None)
        }
    }
}

/// A link was closed: where it is the link of the turn, the turn is lost. It takes no memory.
pub fn link_closes(link: u32, turning: Turning) -> (Turning, Option<TurnEnded>)
    ensures { result ≡ link_closes link turning }
{
    let Turning {
        channel,
        dialling,
        actions,
    } = turning;
    match dialling {
        Dialling::On(number, said) if number == link => {
            drop_turn(DropCause::LinkClosed, turn_on(said), channel, actions)
        }
        dialling => {
            let turning = Turning {
                channel,
                dialling,
                actions,
            };
            (turning, None)
        }
    }
}

/// The right to the turn whose link that is.
fn turn_on(link: Link<TurnTalk>) -> Turn {
    let (_flow, talk) = link.parts();
    let TurnTalk { turn, .. } = talk;
    turn
}

/// The turn is lost for this cause, and none is out.
fn drop_turn(
    cause: DropCause,
    turn: Turn,
    channel: PlainChannel,
    actions: ShortActions,
) -> (Turning, Option<TurnEnded>)
    ensures { result ≡ drop_turn cause channel actions }
{
    let (channel, ended) = lose_turn(channel, turn, cause);
    let turning = Turning {
        channel,
        dialling: Dialling::Nothing,
        actions,
    };
    (turning, Some(ended))
}

// ---- bytes

/// Bytes came on a link: where it is the link of the turn, its units are served, and no turn is out where it ended. No
/// challenge is drawn. `NoMemory` where no memory was found.
pub fn link_hears<Q: Chances>(
    alloc: Global,
    link: u32,
    piece: &[u8],
    turning: Turning,
    chances: &mut Q,
) -> Result<(Turning, Option<TurnEnded>), NoMemory>
    ensures value { IfOk result (λ heard. heard ≡ link_hears link piece.now turning) }
    ensures undrawn { Q.drawing chances.new ≡ Q.drawing chances.old }
{
    let Turning {
        channel,
        dialling,
        actions,
    } = turning;
    match dialling {
        Dialling::On(number, said) if number == link => {
            serve_on(alloc, number, said, piece, channel, actions, chances)
        }
        dialling => {
            let turning = Turning {
                channel,
                dialling,
                actions,
            };
            Ok((turning, None))
        }
    }
}

/// Bytes came on the link of the turn.
fn serve_on<Q: Chances>(
    alloc: Global,
    number: u32,
    said: Link<TurnTalk>,
    piece: &[u8],
    channel: PlainChannel,
    actions: ShortActions,
    chances: &mut Q,
) -> Result<(Turning, Option<TurnEnded>), NoMemory>
    ensures value { IfOk result
        (λ heard. heard ≡ hear_on number said piece.now channel actions) }
    ensures undrawn { Q.drawing chances.new ≡ Q.drawing chances.old }
{
    let at = TurnWork {
        link: number,
        channel,
        actions,
        ended: None,
    };
    match serve_turn(alloc, at, said, piece, chances) {
        Ok((at, still)) => Ok(after_piece(number, at, still)),
        Err(NoMemory) => Err(NoMemory),
    }
}

/// The link of the turn, where the turn is still out, and how it ended, where it did.
pub(crate) fn after_piece(
    number: u32,
    at: TurnWork,
    still: Option<Link<TurnTalk>>,
) -> (Turning, Option<TurnEnded>)
    ensures { result ≡ after_piece number (at, still) }
{
    let TurnWork {
        channel,
        actions,
        ended,
        ..
    } = at;
    let dialling = match still {
        Some(said) => Dialling::On(number, said),
        None => Dialling::Nothing,
    };
    let turning = Turning {
        channel,
        dialling,
        actions,
    };
    (turning, ended)
}

// ---- the next turn

/// The next turn of the channel starts, where one can: that peer is dialled, which is the last action of the end's
/// step. While a turn of this channel is out none can start, and everything stays as it is. A turn that starts takes
/// the place of what was dialled before, if anything was: an end whose channels share one link of turns calls it where
/// none of them has a turn out. A challenge is drawn where the channel needs one: one at most, whatever the result.
///
/// `Spent` exactly where a turn can start, the channel needs a challenge and none is left; `Memory` where no memory was
/// found.
#[tactic(auto, using(crate::proofs::DialLaws::dialling))]
pub fn next_dial<Q: Chances>(
    alloc: Global,
    now: u64,
    peer: &Blob,
    turning: Turning,
    chances: &mut Q,
) -> Result<Turning, StepRefused>
    ensures draws { DrawsSome (Q.drawing chances.old) (Q.drawing chances.new) }
    ensures answer { AnswersBy result
        (next_dial now peer.now turning (Q.drawing chances.old).left)
        (Q.drawing chances.new).left }
    ensures few { length (Q.drawing chances.old).left ≤ length (Q.drawing chances.new).left + 1 }
{
    let Turning {
        channel,
        dialling,
        actions,
    } = turning;
    let (channel, started) = match next_turn(alloc, now, channel, chances) {
        Ok(next) => next,
        Err(why) => {
            drop(dialling);
            return Err(why);
        }
    };
    let turning = Turning {
        channel,
        dialling,
        actions,
    };
    match dial_for(alloc, started, peer, turning) {
        Ok(turning) => Ok(turning),
        Err(NoMemory) => Err(StepRefused::Memory),
    }
}

/// The peer is dialled where a turn starts.
pub(crate) fn dial_for(
    alloc: Global,
    started: Option<(Turn, ShortFrames)>,
    peer: &Blob,
    turning: Turning,
) -> Result<Turning, NoMemory>
    ensures { IfOk result (λ dialled. dialled ≡ dial_for started peer.now turning) }
{
    match started {
        Some((turn, frames)) => send_dial(alloc, turn, frames, peer, turning),
        None => Ok(turning),
    }
}

/// The peer is dialled; these frames go out where it answers.
fn send_dial(
    alloc: Global,
    turn: Turn,
    frames: ShortFrames,
    peer: &Blob,
    turning: Turning,
) -> Result<Turning, NoMemory>
    ensures { IfOk result (λ dialled. dialled ≡ send_dial turn frames peer.now turning) }
{
    let Turning {
        channel,
        dialling,
        mut actions,
    } = turning;
    drop(dialling);
    let peer = match Blob::copy(alloc, peer.bytes()) {
        Ok(peer) => peer,
        Err(NoMemory) => return Err(NoMemory),
    };
    match actions.push(Action::Dial(peer)) {
        Ok(()) => Ok(Turning {
            channel,
            dialling: Dialling::Waits(turn, frames),
            actions,
        }),
        Err(NoMemory) => Err(NoMemory),
    }
}
