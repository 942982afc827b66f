//! Cases of `domain_controller`: a controller that can seal and its events, a scenario a line.

use crate::controllers::table;
use crate::members::name;
use crate::scenes::{add_left, answer, chances};
use case_words::{add_answer, debug_text, no_case, number, number64, word};
use domain_controller::Controller;
use outside::ListChances;
use std::alloc::Global;

/// The answer to a step that is no moment: `holds/LINK`, `wants`, or an event.
fn answer_step(
    alloc: Global,
    end: &mut Controller,
    chances: &mut ListChances,
    now: u64,
    word: &str,
) -> anyhow::Result<String> {
    match word.split_once('/') {
        Some(("holds", link)) => debug_text(alloc, end.holds_sealed(number(link)?)),
        _ => answer(alloc, end, chances, now, word),
    }
}

/// The answers to the steps of a controller that may draw these challenges: `at/MOMENT`, `holds/LINK`, `wants`, or an
/// event.
fn play(
    alloc: Global,
    end: &mut Controller,
    chances: &mut ListChances,
    steps: &[&str],
) -> anyhow::Result<String> {
    let mut answers = String::new(alloc);
    let mut now = 0;
    for each in steps {
        if let Some(("at", moment)) = each.split_once('/') {
            now = number64(moment)?;
            add_answer(&mut answers, "-")?;
        } else {
            let answer = answer_step(alloc, end, chances, now, each)?;
            add_answer(&mut answers, &answer)?;
        }
    }
    Ok(answers)
}

/// `controller.sealing DOCUMENT NAME CHALLENGES STEP ..`: the answers to the steps of a controller that can seal, and
/// the number of challenges that are left.
pub(crate) fn run(alloc: Global, words: &[&str]) -> anyhow::Result<String> {
    let Some(steps) = words.get(4..) else {
        return no_case(alloc);
    };
    let mut chances = chances(alloc, word(words, 3))?;
    let name = name(alloc, word(words, 2))?;
    let table = table(alloc, word(words, 1))?;
    let mut end = Controller::with_sealing(alloc, table, name)?;
    let mut answers = play(alloc, &mut end, &mut chances, steps)?;
    add_left(alloc, &mut answers, &mut chances)?;
    Ok(answers)
}
