//! Cases of `member_server`: a member with its events and the changes of its secret, a scenario a line.

use crate::scenes::{self, actions_text, add_left, chances};
use case_words::{add_answer, blob, bytes, no_case, number64, refusal_text, sixteen, word};
use member_server::{Member, MemberPlan};
use outside::ListChances;
use secret_change::Secrets;
use std::alloc::Global;
use wire_base::Name;

/// A name in ASCII.
pub(crate) fn name(alloc: Global, word: &str) -> anyhow::Result<Name> {
    let bytes = bytes(alloc, word)?;
    Ok(Name::read(alloc, &bytes)?)
}

/// The secrets of a word: one, or two with a comma between them, the current one first.
fn secrets(word: &str) -> anyhow::Result<Secrets> {
    let Some((current, next)) = word.split_once(',') else {
        return Ok(Secrets::alone(sixteen(word)?));
    };
    let mut secrets = Secrets::alone(sixteen(current)?);
    secrets.begin(sixteen(next)?)?;
    Ok(secrets)
}

/// The plan of a line: the computer, its domain, its secrets, and the controller's address.
pub(crate) fn plan(alloc: Global, words: &[&str]) -> anyhow::Result<MemberPlan> {
    let secrets = secrets(word(words, 3))?;
    let computer = name(alloc, word(words, 1))?;
    let domain = name(alloc, word(words, 2))?;
    let controller = blob(alloc, word(words, 4))?;
    Ok(MemberPlan {
        computer,
        domain,
        secrets,
        controller,
        sealed: false,
    })
}

/// Begins a change of the member's secret.
fn change(alloc: Global, member: &mut Member, secret: &str) -> anyhow::Result<String> {
    match member.change(alloc, sixteen(secret)?) {
        Ok(actions) => actions_text(alloc, &actions),
        Err(refused) => refusal_text(alloc, refused),
    }
}

/// The answer to a step that is no moment: `change/SECRET`, `wants`, or an event.
fn answer_step(
    alloc: Global,
    member: &mut Member,
    chances: &mut ListChances,
    now: u64,
    word: &str,
) -> anyhow::Result<String> {
    match word.split_once('/') {
        Some(("change", secret)) => change(alloc, member, secret),
        _ => scenes::answer(alloc, member, chances, now, word),
    }
}

/// The answers to the steps of a member that may draw these challenges: `at/MOMENT`, `change/SECRET`, `wants`, or an
/// event.
fn play(
    alloc: Global,
    member: &mut Member,
    chances: &mut ListChances,
    steps: &[&str],
) -> anyhow::Result<String> {
    let mut answers = String::new(alloc);
    let mut now = 0;
    for each in steps {
        if let Some(("at", moment)) = each.split_once('/') {
            now = number64(moment)?;
            add_answer(&mut answers, "-")?;
        } else {
            let answer = answer_step(alloc, member, chances, now, each)?;
            add_answer(&mut answers, &answer)?;
        }
    }
    Ok(answers)
}

/// The answers to the steps of a member, and the number of challenges that are left.
fn play_and_count(
    alloc: Global,
    member: &mut Member,
    words: &[&str],
    steps: &[&str],
) -> anyhow::Result<String> {
    let mut chances = chances(alloc, word(words, 5))?;
    let mut answers = play(alloc, member, &mut chances, steps)?;
    add_left(alloc, &mut answers, &mut chances)?;
    Ok(answers)
}

/// `member.run COMPUTER DOMAIN SECRETS CONTROLLER CHALLENGES STEP ..`: the answers to the steps, and the number of
/// challenges that are left.
fn run(alloc: Global, words: &[&str]) -> anyhow::Result<String> {
    let Some(steps) = words.get(6..) else {
        return no_case(alloc);
    };
    let plan = plan(alloc, words)?;
    let mut member = Member::new(alloc, plan)?;
    play_and_count(alloc, &mut member, words, steps)
}

/// `member.sealing` with the same words: those of a member whose channel seals.
fn run_sealing(alloc: Global, words: &[&str]) -> anyhow::Result<String> {
    let Some(steps) = words.get(6..) else {
        return no_case(alloc);
    };
    let mut plan = plan(alloc, words)?;
    plan.sealed = true;
    let mut member = Member::with_sealing(alloc, plan)?;
    play_and_count(alloc, &mut member, words, steps)
}

/// The answer of a line whose operation begins with `member.`.
pub(crate) fn answer(alloc: Global, operation: &str, words: &[&str]) -> anyhow::Result<String> {
    match operation {
        "run" => run(alloc, words),
        "sealing" => run_sealing(alloc, words),
        _ => no_case(alloc),
    }
}
