//! How a turn begins, and how it is lost.

ghost use Rattle.std.specs.Prelude.{◌≡◌, ◌≤◌, ◌+◌, length, IfOk};
ghost use Rattle.outside.specs.Drawing.{DrawsSome};
ghost use Rattle.outside.specs.Machine.{AnswersBy};
ghost use Rattle.channel_client.specs.Machine.{start_of};
ghost use Rattle.channel_turns.specs.Dials.{begun, bind_turn, lose_turn, next_turn};

use crate::state::{TurnEnd, TurnEnded, TurnTalk};
use authenticators::timestamp_at;
use channel_client::{PlainChannel, ShortFrames, Turn};
use end_links::{Link, ShortActions};
use outside::{Action, Chances, DropCause, Spent, StepRefused};
use rpc_units::Joiner;
use std::alloc::Global;
use wire_base::NoMemory;

/// The turn of the channel is lost for this cause, which is outside of the channel: it has no link that is open. It
/// takes no memory.
pub fn lose_turn(channel: PlainChannel, turn: Turn, cause: DropCause) -> (PlainChannel, TurnEnded)
    ensures { result ≡ lose_turn cause channel }
{
    let mut channel = channel;
    let place = channel.lose(turn, cause);
    let ended = TurnEnded {
        closes: None,
        how: TurnEnd::Dropped(place, cause),
    };
    (channel, ended)
}

/// The dial of a turn was answered by this link: the bind goes out in these frames. `NoMemory` where no memory was
/// found.
pub fn bind_turn(
    alloc: Global,
    turn: Turn,
    frames: &ShortFrames,
    link: u32,
    actions: ShortActions,
) -> Result<(ShortActions, Link<TurnTalk>), NoMemory>
    ensures { IfOk result (λ bound. bound ≡ bind_turn frames.now link actions) }
{
    let mut actions = actions;
    let bytes = match frames.join(alloc) {
        Ok(bytes) => bytes,
        Err(NoMemory) => return Err(NoMemory),
    };
    match actions.push(Action::Send(link, bytes)) {
        Ok(()) => {}
        Err(NoMemory) => return Err(NoMemory),
    }
    let talk = TurnTalk {
        joiner: Joiner::new(),
        turn,
    };
    match Link::new(alloc, talk) {
        Ok(said) => Ok((actions, said)),
        Err(NoMemory) => Err(NoMemory),
    }
}

/// The turn of the first logon that waits starts with these.
fn start(
    alloc: Global,
    timestamp: u32,
    challenge: [u8; 8],
    channel: PlainChannel,
) -> Result<(PlainChannel, Option<(Turn, ShortFrames)>), NoMemory>
    ensures { IfOk result (λ next. next ≡ begun (start_of channel timestamp challenge)) }
{
    let mut channel = channel;
    match channel.start_turn(alloc, timestamp, challenge) {
        Ok(started) => Ok((channel, started)),
        Err(NoMemory) => Err(NoMemory),
    }
}

/// The next turn of the channel, where one can start: the right to it, and the frames of its bind, for which the end
/// dials now; its call has the timestamp of that moment, in units of 100 ns since 1601. A challenge is drawn where the
/// channel needs one: one at most, whatever the result.
///
/// `Spent` exactly where a turn can start, the channel needs a challenge and none is left; `Memory` where no memory was
/// found.
#[tactic(auto, using(crate::proofs::DrawLaws::drawing))]
pub fn next_turn<Q: Chances>(
    alloc: Global,
    now: u64,
    channel: PlainChannel,
    chances: &mut Q,
) -> Result<(PlainChannel, Option<(Turn, ShortFrames)>), StepRefused>
    ensures draws { DrawsSome (Q.drawing chances.old) (Q.drawing chances.new) }
    ensures answer { AnswersBy result (next_turn now channel (Q.drawing chances.old).left)
        (Q.drawing chances.new).left }
    ensures few { length (Q.drawing chances.old).left ≤ length (Q.drawing chances.new).left + 1 }
{
    if !channel.can_start() {
        return Ok((channel, None));
    }
    if !channel.needs_challenge() {
        return match start(alloc, timestamp_at(now), [0; 8], channel) {
            Ok(next) => Ok(next),
            Err(NoMemory) => Err(StepRefused::Memory),
        };
    }
    let challenge = match chances.next() {
        Ok(challenge) => challenge,
        Err(Spent) => return Err(StepRefused::Spent),
    };
    match start(alloc, timestamp_at(now), challenge, channel) {
        Ok(next) => Ok(next),
        Err(NoMemory) => Err(StepRefused::Memory),
    }
}
