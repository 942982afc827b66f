//! Cases of `logon_client`: a client and its events, a scenario a line.

ghost use Rattle.std.specs.Prelude.{◌≡◌, ◌≤◌, true, length, IsTrue};
ghost use Rattle.unit_security.specs.Levels.{is_level};
ghost use Rattle.logon_client.specs.Plans.{CanLogOn};
ghost use Rattle.logon_client.specs.declared.plan.AuthKind.{AuthKind};

use crate::scenes::{actions_text, add_left, chances, play};
use case_words::{
    add_answer, add_debug, blob, no_case, number, number8, sixteen, text_units, word,
};
use logon_client::{AuthKind, Client, ClientPlan};
use outside::ListChances;
use std::alloc::Global;
use wire_base::Units;

/// The kind of response of a word.
fn kind(word: &str) -> AuthKind {
    match word {
        "v1" => AuthKind::V1,
        "v1ess" => AuthKind::V1Ess,
        _ => AuthKind::V2,
    }
}

/// The domain, the user and the workstation of a line.
fn names(alloc: Global, words: &[&str]) -> anyhow::Result<(Units, Units, Units)> {
    let domain = text_units(alloc, word(words, 2))?;
    let user = text_units(alloc, word(words, 3))?;
    let workstation = text_units(alloc, word(words, 4))?;
    Ok((domain, user, workstation))
}

/// The hash, the level and the number of bytes that are echoed of a line.
fn numbers(words: &[&str]) -> anyhow::Result<([u8; 16], u8, u32)> {
    let hash = sixteen(word(words, 5))?;
    let level = number8(word(words, 6))?;
    let echo = number(word(words, 8))?;
    Ok((hash, level, echo))
}

/// The plan of a line: the server's address, the names, the hash, the level, the kind of response, and the bytes of the
/// echo.
pub(crate) fn plan(alloc: Global, words: &[&str]) -> anyhow::Result<ClientPlan> {
    let (hash, level, echo) = numbers(words)?;
    let server = blob(alloc, word(words, 1))?;
    let (domain, user, workstation) = names(alloc, words)?;
    Ok(ClientPlan {
        server,
        domain,
        user,
        workstation,
        hash,
        level,
        auth: kind(word(words, 7)),
        echo,
    })
}

/// Whether a name is one that a plan may have.
fn is_short(name: &Units) -> bool
    ensures { result ≡ true → length name.now ≤ 64 }
{
    name.units().len() <= 64
}

/// Whether the level is one, and one at which the kind of response may be given.
fn is_level(level: u8, auth: AuthKind) -> bool
    ensures level { result ≡ true → IsTrue (is_level level) }
    ensures plain { result ≡ true → auth ≡ AuthKind.V1 → level ≡ 2 }
{
    match auth {
        AuthKind::V1 => level == 2,
        AuthKind::V1Ess | AuthKind::V2 => level == 2 || level == 5 || level == 6,
    }
}

/// Whether a client can follow the plan.
pub(crate) fn can_log_on(plan: &ClientPlan) -> bool
    ensures { result ≡ true → CanLogOn plan.now }
{
    let short = is_short(&plan.domain) && is_short(&plan.user) && is_short(&plan.workstation);
    short && plan.echo <= 4096 && is_level(plan.level, plan.auth)
}

/// What a client begins with.
fn begin(alloc: Global, end: &mut Client) -> anyhow::Result<String> {
    let actions = end.begin(alloc)?;
    actions_text(alloc, &actions)
}

/// What a client begins with, its answers to the steps, its outcome, and the number of challenges that are left.
fn play_all(
    alloc: Global,
    end: &mut Client,
    chances: &mut ListChances,
    steps: &[&str],
) -> anyhow::Result<String> {
    let mut answers = begin(alloc, end)?;
    let played = play(alloc, end, chances, steps)?;
    add_answer(&mut answers, &played)?;
    add_debug(alloc, &mut answers, end.outcome())?;
    add_left(alloc, &mut answers, chances)?;
    Ok(answers)
}

/// The answers of a client of the plan.
fn play_plan(
    alloc: Global,
    plan: ClientPlan,
    chances: &mut ListChances,
    steps: &[&str],
) -> anyhow::Result<String>
    requires { CanLogOn plan }
{
    let mut end = Client::new(plan);
    play_all(alloc, &mut end, chances, steps)
}

/// `client.run SERVER DOMAIN USER WORKSTATION HASH LEVEL KIND ECHO CHALLENGES STEP ..`: what the client begins with,
/// the answers to the steps, its outcome, and the number of challenges that are left.
pub(crate) fn run(alloc: Global, words: &[&str]) -> anyhow::Result<String> {
    let Some(steps) = words.get(10..) else {
        return no_case(alloc);
    };
    let mut chances = chances(alloc, word(words, 9))?;
    let plan = plan(alloc, words)?;
    if !can_log_on(&plan) {
        return no_case(alloc);
    }
    play_plan(alloc, plan, &mut chances, steps)
}
