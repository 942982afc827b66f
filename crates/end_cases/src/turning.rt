//! Cases of `channel_turns`: units that an end hears on a link that it dialled, and a channel with the link of its
//! turn, a scenario a line.

use crate::scenes::{actions_text, add_left, chances, numbered_text};
use crate::turns::{ask, channel, frames_text, info, set_next, use_secret};
use case_words::{answer_steps, blob, bytes, no_case, number, number64, refusal_text, truth, word};
use channel_client::{PlainChannel, ShortFrames, Turn};
use channel_turns::{
    Dialling, Heard, TurnEnd, TurnEnded, TurnTalk, TurnWork, Turning, bind_turn, hear,
    link_answers, link_closes, link_hears, lose_turn, next_dial, next_turn, no_dial, serve_turn,
};
use end_links::{Link, ShortActions};
use outside::{DropCause, ListChances};
use rpc_units::{Joiner, Unit};
use std::alloc::Global;

// ---- units that are heard

/// A whole unit.
fn whole_text(alloc: Global, unit: Unit) -> anyhow::Result<String> {
    Ok(format!(in alloc; "whole {unit:?}")?)
}

/// What a unit comes to; what is open behind it goes back.
fn heard_text(alloc: Global, open: &mut Option<Joiner>, heard: Heard) -> anyhow::Result<String> {
    match heard {
        Heard::Waits(joiner) => {
            *open = Some(joiner);
            Ok("waits".to_string(alloc)?)
        }
        Heard::Whole(unit, joiner) => {
            *open = Some(joiner);
            whole_text(alloc, unit)
        }
        Heard::Broken(cause) => Ok(format!(in alloc; "broken {cause:?}")?),
    }
}

/// Hears the unit of a word, unless the link is broken.
fn hear_word(alloc: Global, open: &mut Option<Joiner>, word: &str) -> anyhow::Result<String> {
    let bytes = bytes(alloc, word)?;
    match open.take() {
        Some(joiner) => {
            let heard = hear(alloc, &bytes, joiner)?;
            heard_text(alloc, open, heard)
        }
        None => no_case(alloc),
    }
}

/// `turning.hear UNIT ..`.
fn hear_units(alloc: Global, words: &[&str]) -> anyhow::Result<String> {
    let mut open = Some(Joiner::new());
    answer_steps(alloc, words, 1, &mut open, hear_word)
}

// ---- a channel with the link of its turn

/// A channel with the link of its turn, unless a step was refused; the moment, and the challenges that may be drawn.
#[derive(Drop)]
struct Scene {
    turning: Option<Turning>,
    now: u64,
    chances: ListChances,
}

/// How a turn ended.
fn how_text(alloc: Global, how: TurnEnd) -> anyhow::Result<String> {
    match how {
        TurnEnd::Half => Ok("half".to_string(alloc)?),
        TurnEnd::Opened => Ok("opened".to_string(alloc)?),
        TurnEnd::Answer(place, verdict) => {
            numbered_text(alloc, "answer", place, verdict.into_verdict())
        }
        TurnEnd::Dropped(place, cause) => numbered_text(alloc, "dropped", place, cause),
        TurnEnd::Set => Ok("set".to_string(alloc)?),
    }
}

/// How a turn ended, behind the link that is to be closed.
fn ended_text(alloc: Global, ended: TurnEnded) -> anyhow::Result<String> {
    let TurnEnded { closes, how } = ended;
    let how = how_text(alloc, how)?;
    match closes {
        Some((link, cause)) => Ok(format!(in alloc; "closes {link} {cause:?} {how}")?),
        None => Ok(how),
    }
}

/// The actions, and how the turn ended, where it did.
fn after_text(
    alloc: Global,
    actions: ShortActions,
    ended: Option<TurnEnded>,
) -> anyhow::Result<String> {
    let told = actions_text(alloc, &actions.into_actions())?;
    match ended {
        Some(ended) => {
            let ended = ended_text(alloc, ended)?;
            Ok(format!(in alloc; "{told} {ended}")?)
        }
        None => Ok(told),
    }
}

/// The channel and the link of its turn go back to the scene, without the actions, which are told.
fn put_back(
    alloc: Global,
    scene: &mut Scene,
    turning: Turning,
    ended: Option<TurnEnded>,
) -> anyhow::Result<String> {
    let Turning {
        channel,
        dialling,
        actions,
    } = turning;
    let answer = after_text(alloc, actions, ended)?;
    scene.turning = Some(Turning {
        channel,
        dialling,
        actions: ShortActions::new(alloc),
    });
    Ok(answer)
}

/// A step of the channel alone: a logon waits, or a secret is given.
fn do_on_channel(
    alloc: Global,
    channel: &mut PlainChannel,
    parts: &[&str],
) -> anyhow::Result<String> {
    match word(parts, 0) {
        "secret" => use_secret(alloc, channel, word(parts, 1)),
        "following" => set_next(alloc, channel, word(parts, 1)),
        _ => ask(alloc, channel, info(alloc, parts)?),
    }
}

/// A step of the channel.
fn on_channel(
    alloc: Global,
    scene: &mut Scene,
    turning: Turning,
    parts: &[&str],
) -> anyhow::Result<String> {
    let Turning {
        mut channel,
        dialling,
        actions,
    } = turning;
    let answer = do_on_channel(alloc, &mut channel, parts)?;
    scene.turning = Some(Turning {
        channel,
        dialling,
        actions,
    });
    Ok(answer)
}

/// The link that is waited for, whether a link is that of the turn, whether a dial waits, and the bytes that are held.
fn tell(alloc: Global, scene: &mut Scene, turning: Turning, link: u32) -> anyhow::Result<String> {
    let wants = turning.dialling.wants();
    let on = truth(turning.dialling.is_on(link));
    let waits = truth(turning.dialling.is_waiting());
    let held = turning.dialling.held();
    scene.turning = Some(turning);
    Ok(format!(in alloc; "{wants:?} {on} {waits} {held}")?)
}

// ---- events

/// The next turn starts.
fn dial_next(
    alloc: Global,
    scene: &mut Scene,
    turning: Turning,
    peer: &str,
) -> anyhow::Result<String> {
    let peer = blob(alloc, peer)?;
    match next_dial(alloc, scene.now, &peer, turning, &mut scene.chances) {
        Ok(turning) => put_back(alloc, scene, turning, None),
        Err(refused) => refusal_text(alloc, refused),
    }
}

/// Bytes come on a link.
fn hear_on(
    alloc: Global,
    scene: &mut Scene,
    turning: Turning,
    link: u32,
    piece: &str,
) -> anyhow::Result<String> {
    let piece = bytes(alloc, piece)?;
    let (turning, ended) = link_hears(alloc, link, &piece, turning, &mut scene.chances)?;
    put_back(alloc, scene, turning, ended)
}

/// The step for an event of these parts.
fn on_event(
    alloc: Global,
    scene: &mut Scene,
    turning: Turning,
    parts: &[&str],
) -> anyhow::Result<String> {
    let link = number(word(parts, 1)).unwrap_or(0);
    match word(parts, 0) {
        "next" => dial_next(alloc, scene, turning, word(parts, 1)),
        "bytes" => hear_on(alloc, scene, turning, link, word(parts, 2)),
        "dialled" => {
            let turning = link_answers(alloc, link, turning)?;
            put_back(alloc, scene, turning, None)
        }
        "closed" => {
            let (turning, ended) = link_closes(link, turning);
            put_back(alloc, scene, turning, ended)
        }
        "failed" => {
            let (turning, ended) = no_dial(turning);
            put_back(alloc, scene, turning, ended)
        }
        "tell" => tell(alloc, scene, turning, link),
        _ => no_case(alloc),
    }
}

// ---- the calls that those for events rest on

/// The turn that starts, where one does: its frames wait for the link.
fn started_text(
    alloc: Global,
    started: Option<(Turn, ShortFrames)>,
    before: Dialling,
) -> anyhow::Result<(String, Dialling)> {
    match started {
        Some((turn, frames)) => {
            let answer = frames_text(alloc, frames.frames())?;
            Ok((answer, Dialling::Waits(turn, frames)))
        }
        None => Ok(("none".to_string(alloc)?, before)),
    }
}

/// The next turn of the channel.
fn start(alloc: Global, scene: &mut Scene, turning: Turning) -> anyhow::Result<String> {
    let Turning {
        channel,
        dialling,
        actions,
    } = turning;
    match next_turn(alloc, scene.now, channel, &mut scene.chances) {
        Ok((channel, started)) => {
            let (answer, dialling) = started_text(alloc, started, dialling)?;
            scene.turning = Some(Turning {
                channel,
                dialling,
                actions,
            });
            Ok(answer)
        }
        Err(refused) => refusal_text(alloc, refused),
    }
}

/// The bind of a turn that waits goes out on a link.
fn bind(alloc: Global, scene: &mut Scene, turning: Turning, link: u32) -> anyhow::Result<String> {
    let Turning {
        channel,
        dialling,
        actions,
    } = turning;
    match dialling {
        Dialling::Waits(turn, frames) => {
            let (actions, said) = bind_turn(alloc, turn, &frames, link, actions)?;
            let turning = Turning {
                channel,
                dialling: Dialling::On(link, said),
                actions,
            };
            put_back(alloc, scene, turning, None)
        }
        _ => no_case(alloc),
    }
}

/// A piece comes on the link of the turn.
fn serve(
    alloc: Global,
    scene: &mut Scene,
    turning: Turning,
    piece: &str,
) -> anyhow::Result<String> {
    let piece = bytes(alloc, piece)?;
    let Turning {
        channel,
        dialling,
        actions,
    } = turning;
    match dialling {
        Dialling::On(link, said) => {
            let at = TurnWork {
                link,
                channel,
                actions,
                ended: None,
            };
            let (at, said) = serve_turn(alloc, at, said, &piece, &mut scene.chances)?;
            put_served(alloc, scene, at, said)
        }
        _ => no_case(alloc),
    }
}

/// What came of a piece goes back to the scene.
fn put_served(
    alloc: Global,
    scene: &mut Scene,
    at: TurnWork,
    said: Option<Link<TurnTalk>>,
) -> anyhow::Result<String> {
    let TurnWork {
        link,
        channel,
        actions,
        ended,
    } = at;
    let dialling = match said {
        Some(said) => Dialling::On(link, said),
        None => Dialling::Nothing,
    };
    let turning = Turning {
        channel,
        dialling,
        actions,
    };
    put_back(alloc, scene, turning, ended)
}

/// The right to the turn that is out.
fn turn_in(dialling: Dialling) -> Option<Turn> {
    match dialling {
        Dialling::Nothing => None,
        Dialling::Waits(turn, _frames) => Some(turn),
        Dialling::On(_, said) => {
            let (_flow, talk) = said.parts();
            let TurnTalk { turn, .. } = talk;
            Some(turn)
        }
    }
}

/// The turn that is out is lost.
fn lose(alloc: Global, scene: &mut Scene, turning: Turning) -> anyhow::Result<String> {
    let Turning {
        channel,
        dialling,
        actions,
    } = turning;
    match turn_in(dialling) {
        Some(turn) => {
            let (channel, ended) = lose_turn(channel, turn, DropCause::QueueFull);
            let turning = Turning {
                channel,
                dialling: Dialling::Nothing,
                actions,
            };
            put_back(alloc, scene, turning, Some(ended))
        }
        None => no_case(alloc),
    }
}

// ---- steps

/// The answer to a step of these parts.
fn answer_step(
    alloc: Global,
    scene: &mut Scene,
    turning: Turning,
    parts: &[&str],
) -> anyhow::Result<String> {
    match word(parts, 0) {
        "ask" | "secret" | "following" => on_channel(alloc, scene, turning, parts),
        "start" => start(alloc, scene, turning),
        "bind" => bind(alloc, scene, turning, number(word(parts, 1))?),
        "serve" => serve(alloc, scene, turning, word(parts, 1)),
        "lose" => lose(alloc, scene, turning),
        _ => on_event(alloc, scene, turning, parts),
    }
}

/// The answer to a step: `at/MOMENT`, or one of a channel that isn't lost.
fn step(alloc: Global, scene: &mut Scene, step: &str) -> anyhow::Result<String> {
    if let Some(("at", moment)) = step.split_once('/') {
        scene.now = number64(moment)?;
        return Ok("-".to_string(alloc)?);
    }
    let parts: Vec<&str> = step.split('/').collect(alloc)?;
    match scene.turning.take() {
        Some(turning) => answer_step(alloc, scene, turning, &parts),
        None => no_case(alloc),
    }
}

/// A scene of the line's channel and challenges.
fn begin(alloc: Global, channel: PlainChannel, draws: &str) -> anyhow::Result<Scene> {
    Ok(Scene {
        turning: Some(Turning {
            channel,
            dialling: Dialling::Nothing,
            actions: ShortActions::new(alloc),
        }),
        now: 0,
        chances: chances(alloc, draws)?,
    })
}

/// `turning.run SECRET COMPUTER ACCOUNT KIND CHALLENGES STEP ..`: the answers to the steps, and the number of
/// challenges that are left.
fn run(alloc: Global, words: &[&str]) -> anyhow::Result<String> {
    let Some(channel) = channel(alloc, words)? else {
        return no_case(alloc);
    };
    let mut scene = begin(alloc, channel, word(words, 5))?;
    let mut answers = answer_steps(alloc, words, 6, &mut scene, step)?;
    add_left(alloc, &mut answers, &mut scene.chances)?;
    Ok(answers)
}

/// The answer to an operation.
pub(crate) fn answer(alloc: Global, operation: &str, words: &[&str]) -> anyhow::Result<String> {
    match operation {
        "hear" => hear_units(alloc, words),
        "run" => run(alloc, words),
        _ => no_case(alloc),
    }
}
