//! Cases of `controller_calls`: calls that a controller answers one after the other, and what it has then.

ghost use Rattle.std.specs.Prelude.{◌≡◌, true};
ghost use Rattle.end_links.specs.Bounds.{IsShortSend};
ghost use Rattle.controller_calls.specs.Desk.{IsLine};

use crate::controllers::{action, table};
use crate::members::name;
use crate::scenes::actions_text;
use account_table::{Table, TableChanges};
use authenticators::SecureChannel;
use case_words::{
    add_answer, add_part, bytes, debug_text, eight, flags, list_text, no_case, number, number16,
    number64, text, text_units, word,
};
use controller_calls::{
    ChallengePair, Computers, ControllerCall, JudgedCall, Line, Work, answer_authenticate,
    answer_challenge, fault_bytes, judge_call, tell,
};
use end_links::ShortActions;
use interactive_logon::{Sessions, read_interactive};
use logon_stubs::{
    AUTHENTICATE_OPNUM, CHALLENGE_OPNUM, Call, LOGOFF_OPNUM, LOGON_OPNUM, StubRefused, read_call,
};
use outside::Action;
use secret_change::read_set;
use std::alloc::Global;
use wire_base::{List, Name, take_named};

/// NetrServerPasswordSet (MS-NRPC 3.5.4.4.6).
const SET_OPNUM: u16 = 6;

/// A controller's accounts and name, what the calls so far changed of the accounts, and when and where the next one is
/// answered.
#[derive(Drop)]
struct Scene {
    table: Table,
    name: Name,
    changes: TableChanges,
    now: u64,
    line: Line,
}

/// Whether calls can be answered on the line.
fn is_line(line: Line) -> bool
    ensures { result ≡ true → IsLine line }
{
    1432 <= line.limit && line.limit <= 5840
}

/// Whether the action isn't a send, or is one of few enough bytes.
fn is_short(action: &Action) -> bool
    ensures { result ≡ true → IsShortSend action.now }
{
    match action {
        Action::Send(_, bytes) => bytes.bytes().len() <= 589_824,
        _ => true,
    }
}

// ---- the steps

/// The line of a step `on/LINK/CALL/CONTEXT/LIMIT`.
fn line(parts: &[&str]) -> anyhow::Result<Line> {
    Ok(Line {
        link: number(word(parts, 1))?,
        call: number(word(parts, 2))?,
        context: number16(word(parts, 3))?,
        limit: number16(word(parts, 4))?,
    })
}

/// Answers a call, a challenge with the one of the word. None where calls aren't answered on the line, or calls of its
/// number aren't.
fn answer_call(
    alloc: Global,
    scene: &mut Scene,
    work: Work,
    call: ControllerCall,
    server: &str,
) -> anyhow::Result<Option<Work>> {
    let line = scene.line;
    if !is_line(line) {
        return Ok(None);
    }
    let work = match call {
        ControllerCall::Challenge(call) => {
            let server = eight(server)?;
            let changes = &scene.changes;
            answer_challenge(alloc, &scene.table, changes, line, call, server, work)?
        }
        ControllerCall::Authenticate(call) => {
            answer_authenticate(alloc, &scene.table, &scene.changes, line, call, work)?
        }
        ControllerCall::Judged(call) => {
            // no trusted domain's controller is asked
            let (work, _) = judge_call(
                alloc,
                &scene.table,
                &mut scene.changes,
                &scene.name,
                scene.now,
                line,
                0,
                call,
                work,
            )?;
            work
        }
    };
    Ok(Some(work))
}

/// The call of a stub, as a controller serves it: what is no network logon for its tag alone is an interactive one, or
/// its logoff.
fn call_of(alloc: Global, opnum: u16, stub: &[u8]) -> anyhow::Result<ControllerCall> {
    if opnum == SET_OPNUM {
        return Ok(ControllerCall::Judged(JudgedCall::Set(read_set(alloc, stub)?)));
    }
    match read_call(alloc, opnum, stub) {
        Ok(Call::Challenge(call)) => Ok(ControllerCall::Challenge(call)),
        Ok(Call::Authenticate(call)) => Ok(ControllerCall::Authenticate(call)),
        Ok(Call::Logon(call)) => Ok(ControllerCall::Judged(JudgedCall::Network(call))),
        Ok(Call::Logoff(call)) => Ok(ControllerCall::Judged(JudgedCall::NetworkLogoff(call))),
        Err(StubRefused::BadArm(1)) => {
            let call = read_interactive(alloc, opnum, stub)?;
            if opnum == LOGON_OPNUM {
                Ok(ControllerCall::Judged(JudgedCall::Interactive(call)))
            } else {
                Ok(ControllerCall::Judged(JudgedCall::Logoff(call)))
            }
        }
        Err(refused) => Err(refused.into()),
    }
}

/// Answers the call of a step, by its stub.
fn answer_stub(
    alloc: Global,
    scene: &mut Scene,
    work: Work,
    opnum: u16,
    parts: &[&str],
) -> anyhow::Result<Option<Work>> {
    let stub = bytes(alloc, word(parts, 1))?;
    let call = call_of(alloc, opnum, &stub)?;
    answer_call(alloc, scene, work, call, word(parts, 2))
}

/// Tells the action of a step. None where it is a send of too many bytes.
fn tell_action(alloc: Global, work: Work, name: &str) -> anyhow::Result<Option<Work>> {
    let action = action(alloc, name)?;
    if !is_short(&action) {
        return Ok(None);
    }
    Ok(Some(tell(work, action)?))
}

/// Adds COUNT sessions of a computer and a user, with logon ids from 0 on, of which those that there is room for stand:
/// `COMPUTER/USER/COUNT`, behind the first part.
fn fill(alloc: Global, work: Work, parts: &[&str]) -> anyhow::Result<Option<Work>> {
    let computer = text_units(alloc, word(parts, 1))?;
    let user = text_units(alloc, word(parts, 2))?;
    let count = number64(word(parts, 3))?;
    let Work { computers, actions } = work;
    let Computers {
        pending,
        channels,
        mut sessions,
    } = computers;
    for id in 0..count {
        let _added = sessions.add(computer.units(), user.units(), id);
    }
    let computers = Computers {
        pending,
        channels,
        sessions,
    };
    Ok(Some(Work { computers, actions }))
}

/// What a step leaves. None where it is none.
fn step(
    alloc: Global,
    scene: &mut Scene,
    work: Work,
    parts: &[&str],
) -> anyhow::Result<Option<Work>> {
    match word(parts, 0) {
        "challenge" => answer_stub(alloc, scene, work, CHALLENGE_OPNUM, parts),
        "authenticate" => answer_stub(alloc, scene, work, AUTHENTICATE_OPNUM, parts),
        "logon" => answer_stub(alloc, scene, work, LOGON_OPNUM, parts),
        "logoff" => answer_stub(alloc, scene, work, LOGOFF_OPNUM, parts),
        "set" => answer_stub(alloc, scene, work, SET_OPNUM, parts),
        "fill" => fill(alloc, work, parts),
        "tell" => tell_action(alloc, work, word(parts, 1)),
        "fault" => {
            let status = flags(word(parts, 1))?;
            let line = scene.line;
            let bytes = fault_bytes(alloc, line.call, line.context, status)?;
            Ok(Some(tell(work, Action::Send(line.link, bytes))?))
        }
        "on" => {
            scene.line = line(parts)?;
            Ok(Some(work))
        }
        "at" => {
            scene.now = number64(word(parts, 1))?;
            Ok(Some(work))
        }
        _ => Ok(None),
    }
}

/// What the steps leave. None where one of them is none.
fn work_after(alloc: Global, scene: &mut Scene, steps: &[&str]) -> anyhow::Result<Option<Work>> {
    let mut work = Work {
        computers: Computers {
            pending: List::new(alloc),
            channels: List::new(alloc),
            sessions: Sessions::new(alloc)?,
        },
        actions: ShortActions::new(alloc),
    };
    for each in steps {
        let parts: Vec<&str> = each.split('/').collect(alloc)?;
        match step(alloc, scene, work, &parts)? {
            Some(after) => work = after,
            None => return Ok(None),
        }
    }
    Ok(Some(work))
}

// ---- what the controller has then

/// The counts of bad passwords of the accounts, of at most 1,000, as the changes leave them.
fn counts_text(alloc: Global, scene: &Scene) -> anyhow::Result<String> {
    let mut all = String::new(alloc);
    for place in 0..1000 {
        match scene.table.bad_count_with(&scene.changes, place) {
            Some(count) => add_part(&mut all, &debug_text(alloc, count)?)?,
            None => return list_text(alloc, all),
        }
    }
    list_text(alloc, all)
}

/// The challenges that wait for a computer, `CLIENT/SERVER`.
fn pair_text(alloc: Global, pair: Option<ChallengePair>) -> anyhow::Result<String> {
    let Some(pair) = pair else {
        return Ok("-".to_string(alloc)?);
    };
    let client = text(alloc, &pair.client)?;
    let server = text(alloc, &pair.server)?;
    Ok(format!(in alloc; "{client}/{server}")?)
}

/// The key of a computer's channel.
fn key_text(alloc: Global, channel: Option<SecureChannel>) -> anyhow::Result<String> {
    match channel {
        Some(channel) => text(alloc, &channel.key()),
        None => Ok("-".to_string(alloc)?),
    }
}

/// Puts what is kept of a computer behind the answers, and gives what is kept of the others.
fn add_kept(
    alloc: Global,
    answers: &mut String,
    computers: Computers,
    name: &str,
) -> anyhow::Result<Computers> {
    let name = text_units(alloc, name)?;
    let Computers {
        pending,
        channels,
        sessions,
    } = computers;
    let (pending, pair) = take_named(pending, name.units());
    let (channels, channel) = take_named(channels, name.units());
    let pair = pair_text(alloc, pair)?;
    let key = key_text(alloc, channel)?;
    add_answer(answers, &format!(in alloc; "{pair} {key}")?)?;
    Ok(Computers {
        pending,
        channels,
        sessions,
    })
}

/// The actions, the counts of bad passwords, and what is kept of computers of these names.
fn work_text(alloc: Global, scene: &Scene, work: Work, names: &str) -> anyhow::Result<String> {
    let Work { computers, actions } = work;
    let mut answers = actions_text(alloc, &actions.into_actions())?;
    add_answer(&mut answers, &counts_text(alloc, scene)?)?;
    let mut computers = computers;
    for name in names.split(',') {
        computers = add_kept(alloc, &mut answers, computers, name)?;
    }
    Ok(answers)
}

/// The text of the secrets that are set, as the changes leave them, how many sessions stand, and the last four of them.
fn left_text(alloc: Global, scene: &Scene, work: Work) -> anyhow::Result<String> {
    let secrets = scene.table.secrets_with(alloc, &scene.changes)?;
    let mut answers = text(alloc, secrets.bytes())?;
    let sessions = work.computers.sessions.items();
    let count = sessions.len();
    add_answer(&mut answers, &count.to_string(alloc)?)?;
    if let Some(last) = sessions.get(count.saturating_sub(4)..) {
        add_answer(&mut answers, &format!(in alloc; "{last:?}")?)?;
    }
    Ok(answers)
}

// ---- the operations

/// The scene of a line, before its steps.
fn scene_of(alloc: Global, words: &[&str]) -> anyhow::Result<Scene> {
    let name = name(alloc, word(words, 2))?;
    let table = table(alloc, word(words, 1))?;
    Ok(Scene {
        table,
        name,
        changes: TableChanges::new(alloc),
        now: 0,
        line: Line {
            link: 1,
            call: 2,
            context: 0,
            limit: 5840,
        },
    })
}

/// `calls.run DOCUMENT NAME COMPUTERS STEP ..`.
fn run(alloc: Global, words: &[&str]) -> anyhow::Result<String> {
    let Some(steps) = words.get(4..) else {
        return no_case(alloc);
    };
    let mut scene = scene_of(alloc, words)?;
    match work_after(alloc, &mut scene, steps)? {
        Some(work) => work_text(alloc, &scene, work, word(words, 3)),
        None => no_case(alloc),
    }
}

/// `calls.left DOCUMENT NAME COMPUTERS STEP ..`.
fn left(alloc: Global, words: &[&str]) -> anyhow::Result<String> {
    let Some(steps) = words.get(4..) else {
        return no_case(alloc);
    };
    let mut scene = scene_of(alloc, words)?;
    match work_after(alloc, &mut scene, steps)? {
        Some(work) => left_text(alloc, &scene, work),
        None => no_case(alloc),
    }
}

/// `calls.fault CALL CONTEXT STATUS`: the bytes of a fault.
fn fault(alloc: Global, words: &[&str]) -> anyhow::Result<String> {
    let call = number(word(words, 1))?;
    let context = number16(word(words, 2))?;
    let status = flags(word(words, 3))?;
    let bytes = fault_bytes(alloc, call, context, status)?;
    text(alloc, bytes.bytes())
}

/// What an operation gives.
pub(crate) fn answer(alloc: Global, operation: &str, words: &[&str]) -> anyhow::Result<String> {
    match operation {
        "run" => run(alloc, words),
        "left" => left(alloc, words),
        "fault" => fault(alloc, words),
        _ => no_case(alloc),
    }
}
