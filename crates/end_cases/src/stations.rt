//! Cases of `interactive_station`: a station and its events, a scenario a line.

ghost use Rattle.std.specs.Prelude.{◌≡◌, ◌≤◌, true, length};
ghost use Rattle.interactive_station.specs.Plans.{CanStation};

use crate::members::name;
use crate::scenes::{actions_text, add_left, chances, play};
use case_words::{add_answer, add_debug, blob, no_case, sixteen, text_units, word};
use interactive_station::{Station, StationPlan};
use outside::ListChances;
use std::alloc::Global;
use wire_base::Units;

/// The names of domain and user of a line.
fn names(alloc: Global, words: &[&str]) -> anyhow::Result<(Units, Units)> {
    let domain = text_units(alloc, word(words, 4))?;
    let user = text_units(alloc, word(words, 5))?;
    Ok((domain, user))
}

/// The plan of a line: the controller's address, the computer and its secret, the names, and the hash.
pub(crate) fn plan(alloc: Global, words: &[&str]) -> anyhow::Result<StationPlan> {
    let controller = blob(alloc, word(words, 1))?;
    let computer = name(alloc, word(words, 2))?;
    let secret = sixteen(word(words, 3))?;
    let (domain, user) = names(alloc, words)?;
    let hash = sixteen(word(words, 6))?;
    Ok(StationPlan {
        controller,
        computer,
        secret,
        domain,
        user,
        hash,
    })
}

/// Whether a station can follow the plan.
pub(crate) fn can_station(plan: &StationPlan) -> bool
    ensures { result ≡ true → CanStation plan.now }
{
    plan.domain.units().len() <= 64 && plan.user.units().len() <= 64
}

/// What a station begins with.
fn begin(alloc: Global, end: &mut Station) -> anyhow::Result<String> {
    let actions = end.begin(alloc)?;
    actions_text(alloc, &actions)
}

/// What a station begins with, its answers to the steps, its outcome, and the number of challenges that are left.
fn play_all(
    alloc: Global,
    end: &mut Station,
    chances: &mut ListChances,
    steps: &[&str],
) -> anyhow::Result<String> {
    let mut answers = begin(alloc, end)?;
    let played = play(alloc, end, chances, steps)?;
    add_answer(&mut answers, &played)?;
    add_debug(alloc, &mut answers, end.outcome())?;
    add_left(alloc, &mut answers, chances)?;
    Ok(answers)
}

/// The answers of a station of the plan.
fn play_plan(
    alloc: Global,
    plan: StationPlan,
    chances: &mut ListChances,
    steps: &[&str],
) -> anyhow::Result<String>
    requires { CanStation plan }
{
    let mut end = Station::new(alloc, plan)?;
    play_all(alloc, &mut end, chances, steps)
}

/// `station.run CONTROLLER COMPUTER SECRET DOMAIN USER HASH CHALLENGES STEP ..`: what the station begins with, the
/// answers to the steps, its outcome, and the number of challenges that are left.
pub(crate) fn run(alloc: Global, words: &[&str]) -> anyhow::Result<String> {
    let Some(steps) = words.get(8..) else {
        return no_case(alloc);
    };
    let mut chances = chances(alloc, word(words, 7))?;
    let plan = plan(alloc, words)?;
    if !can_station(&plan) {
        return no_case(alloc);
    }
    play_plan(alloc, plan, &mut chances, steps)
}
