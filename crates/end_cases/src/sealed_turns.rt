//! Cases of `channel_client`: a channel that may seal and its steps, a scenario a line.

use crate::members::name;
use crate::turns::{can_write, empty_info, following, frames_text, info, is_account, taken_text};
use case_words::{
    answer_steps, bytes, debug_text, eight, no_case, number, number16, sixteen, text_units, truth,
    word,
};
use channel_client::{Channel, TakeRefused, Taken, Turn};
use channel_sealing::{SealedPart, sealed_part};
use channel_turns::{Heard, hear};
use logon_stubs::NetworkInfo;
use netlogon_seal::NlRefused;
use outside::DropCause;
use rpc_units::{Joiner, Unit};
use std::alloc::Global;
use wire_base::NoMemory;

/// A channel at work, and the right to its turn while one is out; whether the link of that turn is sealed, and what of
/// a reply came on it.
#[derive(Drop)]
struct Scene {
    channel: Channel,
    turn: Option<Turn>,
    is_link_sealed: bool,
    joiner: Option<Joiner>,
}

/// Lets a logon wait.
fn ask(alloc: Global, channel: &mut Channel, logon: NetworkInfo) -> anyhow::Result<String> {
    if !can_write(&logon) {
        return no_case(alloc);
    }
    debug_text(alloc, channel.ask(logon))
}

/// Lets so many logons wait, and answers for the last.
fn fill(alloc: Global, channel: &mut Channel, count: u32) -> anyhow::Result<String> {
    let mut answer = no_case(alloc)?;
    for _ in 0..count {
        answer = ask(alloc, channel, empty_info(alloc))?;
    }
    Ok(answer)
}

/// Whether a turn can start, and whether it draws a challenge.
fn can(alloc: Global, channel: &Channel) -> anyhow::Result<String> {
    let start = truth(channel.can_start());
    let draw = truth(channel.needs_challenge());
    Ok(format!(in alloc; "{start} {draw}")?)
}

/// Whether the channel is none, and whether the call of its turn is sealed.
fn stands(alloc: Global, channel: &Channel) -> anyhow::Result<String> {
    let none = truth(channel.is_none());
    let sealed = truth(channel.sealed());
    Ok(format!(in alloc; "{none} {sealed}")?)
}

/// Starts a turn, on a new link.
fn start(alloc: Global, scene: &mut Scene, parts: &[&str]) -> anyhow::Result<String> {
    let timestamp = number(word(parts, 1))?;
    let challenge = eight(word(parts, 2))?;
    match scene.channel.start_turn(alloc, timestamp, challenge)? {
        Some((turn, frames)) => {
            scene.turn = Some(turn);
            scene.is_link_sealed = false;
            scene.joiner = Some(Joiner::new());
            frames_text(alloc, frames.frames())
        }
        None => Ok("none".to_string(alloc)?),
    }
}

/// Gives the turn up for that cause.
fn give_up(scene: &mut Scene, cause: DropCause) -> Option<u32> {
    match scene.turn.take() {
        Some(turn) => Some(scene.channel.lose(turn, cause)),
        None => None,
    }
}

/// Gives the turn up.
fn lose(alloc: Global, scene: &mut Scene) -> anyhow::Result<String> {
    match give_up(scene, DropCause::LinkClosed) {
        Some(place) => Ok(format!(in alloc; "{place}")?),
        None => Ok("no turn".to_string(alloc)?),
    }
}

/// Takes a whole unit. The link is sealed from there on where a request goes out that is.
fn take_whole(alloc: Global, scene: &mut Scene, unit: &Unit) -> anyhow::Result<String> {
    let Some(turn) = scene.turn.take() else {
        return Ok("no turn".to_string(alloc)?);
    };
    match scene.channel.take(alloc, turn, unit) {
        Ok(taken) => {
            if matches!(&taken, Taken::Next(_, _)) {
                scene.is_link_sealed = scene.channel.sealed();
            }
            taken_text(alloc, &mut scene.turn, taken)
        }
        Err(TakeRefused::Memory(_)) => Err(NoMemory.into()),
    }
}

/// Joins a unit to what came before it, and takes what is whole.
fn join(alloc: Global, scene: &mut Scene, unit: &[u8]) -> anyhow::Result<String> {
    let Some(joiner) = scene.joiner.take() else {
        return Ok("no turn".to_string(alloc)?);
    };
    match hear(alloc, unit, joiner)? {
        Heard::Waits(joiner) => {
            scene.joiner = Some(joiner);
            Ok("waits".to_string(alloc)?)
        }
        Heard::Whole(unit, joiner) => {
            scene.joiner = Some(joiner);
            take_whole(alloc, scene, &unit)
        }
        Heard::Broken(cause) => Ok(format!(in alloc; "broken {cause:?}")?),
    }
}

/// Opens in its place what of a unit is sealed. A refusal is none where a signature is missing.
fn open_part(channel: &mut Channel, unit: &mut [u8]) -> Result<(), Option<NlRefused>> {
    if !channel.sealed() {
        return Ok(());
    }
    match sealed_part(unit) {
        SealedPart::Nothing => Ok(()),
        SealedPart::Missing => Err(None),
        SealedPart::Range(from, to) => match channel.open(unit, from, to) {
            Ok(()) => Ok(()),
            Err(refused) => Err(Some(refused)),
        },
    }
}

/// The turn is lost by a unit that isn't opened.
fn lose_seal(alloc: Global, scene: &mut Scene, why: Option<NlRefused>) -> anyhow::Result<String> {
    let cause = DropCause::BadSeal;
    match give_up(scene, cause) {
        Some(place) => Ok(format!(in alloc; "dropped {place} {cause:?} {why:?}")?),
        None => Ok("no turn".to_string(alloc)?),
    }
}

/// What the unit of a word comes to, as an end takes it that serves the link of its turn: what is sealed is opened, it
/// is joined, and what is whole is taken.
fn take(alloc: Global, scene: &mut Scene, word: &str) -> anyhow::Result<String> {
    let mut unit = bytes(alloc, word)?;
    if scene.is_link_sealed {
        if let Err(why) = open_part(&mut scene.channel, &mut unit) {
            return lose_seal(alloc, scene, why);
        }
    }
    join(alloc, scene, &unit)
}

/// Gives a channel that is none another secret.
#[tactic(auto, using(member_server::proofs::SecretLaws::giving))]
fn use_secret(alloc: Global, channel: &mut Channel, secret: &str) -> anyhow::Result<String> {
    let secret = sixteen(secret)?;
    if !channel.can_start() || !channel.is_none() {
        return no_case(alloc);
    }
    channel.use_secret(secret);
    Ok("-".to_string(alloc)?)
}

/// Gives a channel the next secret, or none.
#[tactic(auto, using(member_server::proofs::SecretLaws::giving))]
fn set_next(alloc: Global, channel: &mut Channel, secret: &str) -> anyhow::Result<String> {
    let next = following(secret)?;
    if !channel.can_start() {
        return no_case(alloc);
    }
    channel.set_next(next);
    Ok("-".to_string(alloc)?)
}

/// The answer to a step of these parts.
fn answer_step(alloc: Global, scene: &mut Scene, parts: &[&str]) -> anyhow::Result<String> {
    match word(parts, 0) {
        "secret" => use_secret(alloc, &mut scene.channel, word(parts, 1)),
        "following" => set_next(alloc, &mut scene.channel, word(parts, 1)),
        "ask" => ask(alloc, &mut scene.channel, info(alloc, parts)?),
        "fill" => fill(alloc, &mut scene.channel, number(word(parts, 1))?),
        "can" => can(alloc, &scene.channel),
        "stands" => stands(alloc, &scene.channel),
        "start" => start(alloc, scene, parts),
        "take" => take(alloc, scene, word(parts, 1)),
        "lose" => lose(alloc, scene),
        _ => no_case(alloc),
    }
}

/// The answer to a step.
fn step(alloc: Global, scene: &mut Scene, step: &str) -> anyhow::Result<String> {
    let parts: Vec<&str> = step.split('/').collect(alloc)?;
    answer_step(alloc, scene, &parts)
}

/// The channel of a line: `SECRET COMPUTER ACCOUNT KIND DOMAIN SEALS`, where it seals by `on`. None where it may not
/// have the account.
fn channel(alloc: Global, words: &[&str]) -> anyhow::Result<Option<Channel>> {
    let secret = sixteen(word(words, 1))?;
    let kind = number16(word(words, 4))?;
    let account = text_units(alloc, word(words, 3))?;
    if !is_account(&account) {
        return Ok(None);
    }
    let computer = name(alloc, word(words, 2))?;
    let domain = name(alloc, word(words, 5))?;
    let seals = word(words, 6) == "on";
    let channel = Channel::new(alloc, secret, computer, account, kind, domain, seals)?;
    Ok(Some(channel))
}

/// `turns.sealing SECRET COMPUTER ACCOUNT KIND DOMAIN SEALS STEP ..`.
fn run(alloc: Global, words: &[&str]) -> anyhow::Result<String> {
    let Some(channel) = channel(alloc, words)? else {
        return no_case(alloc);
    };
    let mut scene = Scene {
        channel,
        turn: None,
        is_link_sealed: false,
        joiner: None,
    };
    answer_steps(alloc, words, 7, &mut scene, step)
}

/// The answer to an operation.
pub(crate) fn answer(alloc: Global, operation: &str, words: &[&str]) -> anyhow::Result<String> {
    match operation {
        "sealing" => run(alloc, words),
        _ => no_case(alloc),
    }
}
