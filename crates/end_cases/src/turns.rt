//! Cases of `channel_client`: a channel that seals nothing and its steps, a scenario a line. `sealed_turns` has those
//! of a channel that may seal.

ghost use Rattle.std.specs.Prelude.{◌≡◌, ◌≤◌, true, length};
ghost use Rattle.logon_stubs.specs.Parts.{FitsText, FitsBytes};
ghost use Rattle.logon_stubs.specs.Writing.{CanWriteNetworkInfo};

use crate::members::name;
use crate::scenes::numbered_text;
use crate::sealed_turns;
use case_words::{
    add_part, answer_steps, blob, bytes, debug_text, eight, no_case, number, number16, sixteen,
    text, text_units, truth, word,
};
use channel_client::{PlainChannel, TakeRefused, Taken, Turn};
use logon_stubs::NetworkInfo;
use outside::DropCause;
use rpc_units::{Unit, read_unit};
use std::alloc::Global;
use wire_base::{Blob, Frames, NoMemory, Units};

/// A channel at work, and the right to its turn while one is out.
#[derive(Drop)]
struct Scene {
    channel: PlainChannel,
    turn: Option<Turn>,
}

/// Whether a text is one that a stub may hold.
fn fits(units: &Units) -> bool
    ensures { result ≡ true → FitsText units.now }
{
    units.units().len() <= 32767
}

/// Whether a byte string is one that a stub may hold.
fn fits_bytes(bytes: &Blob) -> bool
    ensures { result ≡ true → FitsBytes bytes.now }
{
    bytes.bytes().len() <= 65535
}

/// Whether a logon may be asked.
pub(crate) fn can_write(info: &NetworkInfo) -> bool
    ensures { result ≡ true → CanWriteNetworkInfo info.now }
{
    let texts = fits(&info.domain) && fits(&info.user) && fits(&info.workstation);
    texts && fits_bytes(&info.nt) && fits_bytes(&info.lm)
}

/// Whether an account's name is one that a channel may have.
pub(crate) fn is_account(units: &Units) -> bool
    ensures { result ≡ true → length units.now ≤ 65 }
{
    units.units().len() <= 65
}

/// The domain, the user and the workstation of a step.
fn names(alloc: Global, parts: &[&str]) -> anyhow::Result<(Units, Units, Units)> {
    let domain = text_units(alloc, word(parts, 1))?;
    let user = text_units(alloc, word(parts, 2))?;
    let workstation = text_units(alloc, word(parts, 3))?;
    Ok((domain, user, workstation))
}

/// The responses of a step: NT and LM.
fn responses(alloc: Global, parts: &[&str]) -> anyhow::Result<(Blob, Blob)> {
    let nt = blob(alloc, word(parts, 5))?;
    let lm = blob(alloc, word(parts, 6))?;
    Ok((nt, lm))
}

/// A logon of a step `ask/DOMAIN/USER/WORKSTATION/CHALLENGE/NT/LM`.
pub(crate) fn info(alloc: Global, parts: &[&str]) -> anyhow::Result<NetworkInfo> {
    let challenge = eight(word(parts, 4))?;
    let (nt, lm) = responses(alloc, parts)?;
    let (domain, user, workstation) = names(alloc, parts)?;
    Ok(NetworkInfo {
        domain,
        control: 0,
        logon_id: 0,
        user,
        workstation,
        challenge,
        nt,
        lm,
    })
}

/// No text.
fn no_text(alloc: Global) -> Units {
    Units::from_vec(Vec::new(alloc))
}

/// A logon without names and responses.
pub(crate) fn empty_info(alloc: Global) -> NetworkInfo {
    NetworkInfo {
        domain: no_text(alloc),
        control: 0,
        logon_id: 0,
        user: no_text(alloc),
        workstation: no_text(alloc),
        challenge: [0; 8],
        nt: Blob::from_vec(Vec::new(alloc)),
        lm: Blob::from_vec(Vec::new(alloc)),
    }
}

/// Lets a logon wait.
pub(crate) fn ask(
    alloc: Global,
    channel: &mut PlainChannel,
    logon: NetworkInfo,
) -> anyhow::Result<String> {
    if !can_write(&logon) {
        return no_case(alloc);
    }
    debug_text(alloc, channel.ask(logon))
}

/// Lets so many logons wait, and answers for the last.
fn fill(alloc: Global, scene: &mut Scene, count: u32) -> anyhow::Result<String> {
    let mut answer = no_case(alloc)?;
    for _ in 0..count {
        answer = ask(alloc, &mut scene.channel, empty_info(alloc))?;
    }
    Ok(answer)
}

/// Whether a turn can start, and whether it draws a challenge.
fn can(alloc: Global, scene: &Scene) -> anyhow::Result<String> {
    let start = truth(scene.channel.can_start());
    let draw = truth(scene.channel.needs_challenge());
    Ok(format!(in alloc; "{start} {draw}")?)
}

/// Puts a frame in hex behind the others.
fn put_frame(alloc: Global, all: &mut String, frame: &[u8]) -> anyhow::Result<()> {
    let one = text(alloc, frame)?;
    add_part(all, &one)
}

/// Frames in hex, between commas.
pub(crate) fn frames_text(alloc: Global, frames: &Frames) -> anyhow::Result<String> {
    let mut all = String::new(alloc);
    for frame in frames.items() {
        put_frame(alloc, &mut all, frame.bytes())?;
    }
    Ok(all)
}

/// Starts a turn.
fn start(alloc: Global, scene: &mut Scene, parts: &[&str]) -> anyhow::Result<String> {
    let timestamp = number(word(parts, 1))?;
    let challenge = eight(word(parts, 2))?;
    match scene.channel.start_turn(alloc, timestamp, challenge)? {
        Some((turn, frames)) => {
            scene.turn = Some(turn);
            frames_text(alloc, frames.frames())
        }
        None => Ok("none".to_string(alloc)?),
    }
}

/// The frames that are sent next.
fn next_text(alloc: Global, frames: &Frames) -> anyhow::Result<String> {
    let frames = frames_text(alloc, frames)?;
    Ok(format!(in alloc; "next {frames}")?)
}

/// What a unit came to; the right goes back where it comes back.
pub(crate) fn taken_text(
    alloc: Global,
    back: &mut Option<Turn>,
    taken: Taken,
) -> anyhow::Result<String> {
    match taken {
        Taken::Skip(turn) => {
            *back = Some(turn);
            Ok("skip".to_string(alloc)?)
        }
        Taken::Next(turn, frames) => {
            *back = Some(turn);
            next_text(alloc, frames.frames())
        }
        Taken::Half => Ok("half".to_string(alloc)?),
        Taken::Opened => Ok("opened".to_string(alloc)?),
        Taken::Answer(place, verdict) => numbered_text(alloc, "answer", place, verdict),
        Taken::Dropped(place, cause) => numbered_text(alloc, "dropped", place, cause),
        Taken::Set => Ok("set".to_string(alloc)?),
    }
}

/// Takes a unit.
fn take_unit(alloc: Global, scene: &mut Scene, unit: &Unit) -> anyhow::Result<String> {
    let Some(turn) = scene.turn.take() else {
        return Ok("no turn".to_string(alloc)?);
    };
    match scene.channel.take(alloc, turn, unit) {
        Ok(taken) => taken_text(alloc, &mut scene.turn, taken),
        Err(TakeRefused::Memory(_)) => Err(NoMemory.into()),
    }
}

/// Takes the unit of a word.
fn take(alloc: Global, scene: &mut Scene, word: &str) -> anyhow::Result<String> {
    let bytes = bytes(alloc, word)?;
    let unit = read_unit(alloc, &bytes)?;
    take_unit(alloc, scene, &unit)
}

/// Gives the turn up.
fn lose(alloc: Global, scene: &mut Scene) -> anyhow::Result<String> {
    let Some(turn) = scene.turn.take() else {
        return Ok("no turn".to_string(alloc)?);
    };
    let place = scene.channel.lose(turn, DropCause::LinkClosed);
    Ok(format!(in alloc; "{place}")?)
}

/// Gives a channel that is none another secret.
#[tactic(auto, using(member_server::proofs::SecretLaws::giving))]
pub(crate) fn use_secret(
    alloc: Global,
    channel: &mut PlainChannel,
    secret: &str,
) -> anyhow::Result<String> {
    let secret = sixteen(secret)?;
    if !channel.can_start() || !channel.needs_challenge() {
        return no_case(alloc);
    }
    channel.use_secret(secret);
    Ok("-".to_string(alloc)?)
}

/// The secret of a word, or none.
pub(crate) fn following(word: &str) -> anyhow::Result<Option<[u8; 16]>> {
    match word {
        "none" => Ok(None),
        secret => Ok(Some(sixteen(secret)?)),
    }
}

/// Gives a channel the next secret, or none.
#[tactic(auto, using(member_server::proofs::SecretLaws::giving))]
pub(crate) fn set_next(
    alloc: Global,
    channel: &mut PlainChannel,
    secret: &str,
) -> anyhow::Result<String> {
    let next = following(secret)?;
    if !channel.can_start() {
        return no_case(alloc);
    }
    channel.set_next(next);
    Ok("-".to_string(alloc)?)
}

/// The answer to a step of these parts.
fn answer_step(alloc: Global, scene: &mut Scene, parts: &[&str]) -> anyhow::Result<String> {
    match word(parts, 0) {
        "secret" => use_secret(alloc, &mut scene.channel, word(parts, 1)),
        "following" => set_next(alloc, &mut scene.channel, word(parts, 1)),
        "ask" => ask(alloc, &mut scene.channel, info(alloc, parts)?),
        "fill" => fill(alloc, scene, number(word(parts, 1))?),
        "can" => can(alloc, scene),
        "start" => start(alloc, scene, parts),
        "take" => take(alloc, scene, word(parts, 1)),
        "lose" => lose(alloc, scene),
        _ => no_case(alloc),
    }
}

/// The answer to a step.
fn step(alloc: Global, scene: &mut Scene, step: &str) -> anyhow::Result<String> {
    let parts: Vec<&str> = step.split('/').collect(alloc)?;
    answer_step(alloc, scene, &parts)
}

/// The channel of a line: `SECRET COMPUTER ACCOUNT KIND`. None where it may not have the account.
pub(crate) fn channel(alloc: Global, words: &[&str]) -> anyhow::Result<Option<PlainChannel>> {
    let secret = sixteen(word(words, 1))?;
    let kind = number16(word(words, 4))?;
    let account = text_units(alloc, word(words, 3))?;
    if !is_account(&account) {
        return Ok(None);
    }
    let computer = name(alloc, word(words, 2))?;
    let channel = PlainChannel::new(alloc, secret, computer, account, kind)?;
    Ok(Some(channel))
}

/// `turns.run SECRET COMPUTER ACCOUNT KIND STEP ..`.
fn run(alloc: Global, words: &[&str]) -> anyhow::Result<String> {
    let Some(channel) = channel(alloc, words)? else {
        return no_case(alloc);
    };
    let mut scene = Scene {
        channel,
        turn: None,
    };
    answer_steps(alloc, words, 5, &mut scene, step)
}

/// The answer to an operation.
pub(crate) fn answer(alloc: Global, operation: &str, words: &[&str]) -> anyhow::Result<String> {
    match operation {
        "run" => run(alloc, words),
        _ => sealed_turns::answer(alloc, operation, words),
    }
}
