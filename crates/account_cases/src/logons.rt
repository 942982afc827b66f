//! Cases of `sam_logon`: the verdict of a controller on a logon.

use crate::tables::table;
use account_table::{Table, TableChanges};
use case_words::{
    answer_steps, blob, bytes, debug_text, eight, no_case, number, number16, number64, sixteen,
    text_units, word,
};
use logon_stubs::{NetworkInfo, Verdict};
use sam_logon::{
    Weighed, at_level, judge_interactive, judge_logon, weigh_interactive, weigh_logon,
};
use std::alloc::Global;
use wire_base::{Blob, Name, Units};

/// The domain, the user and the workstation of a logon.
fn names(alloc: Global, words: &[&str]) -> anyhow::Result<(Units, Units, Units)> {
    let domain = text_units(alloc, word(words, 3))?;
    let user = text_units(alloc, word(words, 4))?;
    let workstation = text_units(alloc, word(words, 5))?;
    Ok((domain, user, workstation))
}

/// What is sent of a logon with that challenge and that response.
fn sent(alloc: Global, names: (Units, Units, Units), challenge: [u8; 8], nt: Blob) -> NetworkInfo {
    let (domain, user, workstation) = names;
    NetworkInfo {
        domain,
        control: 0,
        logon_id: 0,
        user,
        workstation,
        challenge,
        nt,
        lm: Blob::from_vec(Vec::new(alloc)),
    }
}

/// What is sent of a logon: `DOMAIN USER WORKSTATION CHALLENGE NT`, from the third word on.
fn info(alloc: Global, words: &[&str]) -> anyhow::Result<NetworkInfo> {
    let challenge = eight(word(words, 6))?;
    let nt = blob(alloc, word(words, 7))?;
    Ok(sent(alloc, names(alloc, words)?, challenge, nt))
}

/// The name of the controller.
fn controller(alloc: Global, word: &str) -> anyhow::Result<Name> {
    let name = bytes(alloc, word)?;
    Ok(Name::read(alloc, &name)?)
}

/// The verdict of a controller of the table.
fn verdict(
    alloc: Global,
    table: &mut Table,
    words: &[&str],
    info: &NetworkInfo,
) -> anyhow::Result<String> {
    let now = number64(word(words, 8))?;
    let controller = controller(alloc, word(words, 2))?;
    debug_text(alloc, judge_logon(alloc, table, &controller, info, now))
}

/// The verdict of a controller of the table on an interactive logon.
fn interactive_verdict(alloc: Global, table: &mut Table, words: &[&str]) -> anyhow::Result<String> {
    let nt = sixteen(word(words, 6))?;
    let now = number64(word(words, 7))?;
    let controller = controller(alloc, word(words, 2))?;
    let (domain, user, workstation) = names(alloc, words)?;
    debug_text(
        alloc,
        judge_interactive(
            alloc,
            table,
            &controller,
            domain.units(),
            user.units(),
            workstation.units(),
            &nt,
            now,
        ),
    )
}

/// `logon.interactive DOCUMENT CONTROLLER DOMAIN USER WORKSTATION HASH NOW`: the verdict.
fn interactive(alloc: Global, words: &[&str]) -> anyhow::Result<String> {
    let mut table = table(alloc, word(words, 1))?;
    interactive_verdict(alloc, &mut table, words)
}

// ---- one after the other

/// A table, the changes that are to be made of it, who judges, and when.
#[derive(Drop)]
struct Judging {
    table: Table,
    changes: TableChanges,
    controller: Name,
    now: u64,
}

/// What is sent of a logon in a step: `DOMAIN USER WORKSTATION CHALLENGE NT`, behind the step's name.
fn info_of_step(alloc: Global, parts: &[&str]) -> anyhow::Result<NetworkInfo> {
    let challenge = eight(word(parts, 4))?;
    let nt = blob(alloc, word(parts, 5))?;
    let domain = text_units(alloc, word(parts, 1))?;
    let user = text_units(alloc, word(parts, 2))?;
    let workstation = text_units(alloc, word(parts, 3))?;
    Ok(sent(alloc, (domain, user, workstation), challenge, nt))
}

/// A verdict in short: its status, or the count of bad passwords, the flags and the number of further identifiers that
/// are granted.
fn short_verdict(alloc: Global, verdict: &Verdict) -> anyhow::Result<String> {
    match verdict {
        Verdict::Status(status) => Ok(format!(in alloc; "status {status}")?),
        Verdict::Granted(info) => Ok(format!(in alloc;
            "granted {} {} {}",
            info.bad_count,
            info.user_flags,
            info.extra.len()
        )?),
    }
}

/// Judges a network logon.
fn judge_step(alloc: Global, judging: &mut Judging, parts: &[&str]) -> anyhow::Result<String> {
    let info = info_of_step(alloc, parts)?;
    let verdict = judge_logon(
        alloc,
        &mut judging.table,
        &judging.controller,
        &info,
        judging.now,
    )?;
    short_verdict(alloc, &verdict)
}

/// Judges an interactive logon.
fn interactive_step(
    alloc: Global,
    judging: &mut Judging,
    parts: &[&str],
) -> anyhow::Result<String> {
    let domain = text_units(alloc, word(parts, 1))?;
    let user = text_units(alloc, word(parts, 2))?;
    let workstation = text_units(alloc, word(parts, 3))?;
    let nt = sixteen(word(parts, 4))?;
    let verdict = judge_interactive(
        alloc,
        &mut judging.table,
        &judging.controller,
        domain.units(),
        user.units(),
        workstation.units(),
        &nt,
        judging.now,
    )?;
    short_verdict(alloc, &verdict)
}

/// Collects what a verdict changes: the verdict in short, and the change.
fn collect(alloc: Global, changes: &mut TableChanges, weighed: &Weighed) -> anyhow::Result<String> {
    if let Some(change) = weighed.change {
        changes.push(change)?;
    }
    let verdict = short_verdict(alloc, &weighed.verdict)?;
    Ok(format!(in alloc; "{verdict} {:?}", weighed.change)?)
}

/// Weighs a network logon.
fn weigh_step(alloc: Global, judging: &mut Judging, parts: &[&str]) -> anyhow::Result<String> {
    let info = info_of_step(alloc, parts)?;
    let weighed = weigh_logon(
        alloc,
        &judging.table,
        &judging.changes,
        &judging.controller,
        &info,
        judging.now,
    )?;
    collect(alloc, &mut judging.changes, &weighed)
}

/// Weighs an interactive logon.
fn weigh_interactive_step(
    alloc: Global,
    judging: &mut Judging,
    parts: &[&str],
) -> anyhow::Result<String> {
    let domain = text_units(alloc, word(parts, 1))?;
    let user = text_units(alloc, word(parts, 2))?;
    let workstation = text_units(alloc, word(parts, 3))?;
    let nt = sixteen(word(parts, 4))?;
    let weighed = weigh_interactive(
        alloc,
        &judging.table,
        &judging.changes,
        &judging.controller,
        domain.units(),
        user.units(),
        workstation.units(),
        &nt,
        judging.now,
    )?;
    collect(alloc, &mut judging.changes, &weighed)
}

/// The count of bad passwords of the account at a place.
fn count(alloc: Global, table: &Table, at: &str) -> anyhow::Result<String> {
    debug_text(alloc, table.bad_count(number(at)?))
}

/// Sets that count.
fn set_count(alloc: Global, table: &mut Table, parts: &[&str]) -> anyhow::Result<String> {
    let at = number(word(parts, 1))?;
    let count = number16(word(parts, 2))?;
    if table.account(at).is_some() {
        table.set_bad_count(at, count);
    }
    debug_text(alloc, table.bad_count(at))
}

/// Makes the changes.
fn commit(alloc: Global, judging: &mut Judging) -> anyhow::Result<String> {
    judging.table.commit(&judging.changes);
    judging.changes = TableChanges::new(alloc);
    Ok("done".to_string(alloc)?)
}

/// What a step gives: `judge,DOMAIN,USER,WORKSTATION,CHALLENGE,NT` and `interactive,DOMAIN,USER,WORKSTATION,HASH`
/// change the table; `weigh` and `weigh_interactive` with the same give a change, which `commit` makes; `count,AT`,
/// `set_count,AT,COUNT`.
fn step(alloc: Global, judging: &mut Judging, step: &str) -> anyhow::Result<String> {
    let parts: Vec<&str> = step.split(',').collect(alloc)?;
    match word(&parts, 0) {
        "judge" => judge_step(alloc, judging, &parts),
        "interactive" => interactive_step(alloc, judging, &parts),
        "weigh" => weigh_step(alloc, judging, &parts),
        "weigh_interactive" => weigh_interactive_step(alloc, judging, &parts),
        "commit" => commit(alloc, judging),
        "count" => count(alloc, &judging.table, word(&parts, 1)),
        "set_count" => set_count(alloc, &mut judging.table, &parts),
        _ => no_case(alloc),
    }
}

/// `logon.steps DOCUMENT CONTROLLER NOW STEP..`: what each step gives.
fn steps(alloc: Global, words: &[&str]) -> anyhow::Result<String> {
    let table = table(alloc, word(words, 1))?;
    let controller = controller(alloc, word(words, 2))?;
    let now = number64(word(words, 3))?;
    let changes = TableChanges::new(alloc);
    let mut judging = Judging {
        table,
        changes,
        controller,
        now,
    };
    answer_steps(alloc, words, 4, &mut judging, step)
}

/// What a reply at a level carries of a verdict.
fn verdict_at(alloc: Global, verdict: Verdict, level: u16) -> Verdict {
    match verdict {
        Verdict::Granted(info) => Verdict::Granted(at_level(alloc, info, level)),
        Verdict::Status(status) => Verdict::Status(status),
    }
}

/// The verdict, as a reply at a level carries it.
fn level_verdict(
    alloc: Global,
    table: &mut Table,
    words: &[&str],
    info: &NetworkInfo,
) -> anyhow::Result<String> {
    let now = number64(word(words, 8))?;
    let level = number16(word(words, 9))?;
    let controller = controller(alloc, word(words, 2))?;
    let verdict = judge_logon(alloc, table, &controller, info, now)?;
    debug_text(alloc, verdict_at(alloc, verdict, level))
}

/// `logon.at_level DOCUMENT CONTROLLER DOMAIN USER WORKSTATION CHALLENGE NT NOW LEVEL`: what a reply at that level
/// carries of the verdict.
fn judge_at_level(alloc: Global, words: &[&str]) -> anyhow::Result<String> {
    let info = info(alloc, words)?;
    let mut table = table(alloc, word(words, 1))?;
    level_verdict(alloc, &mut table, words, &info)
}

/// What an operation gives.
pub(crate) fn answer(alloc: Global, operation: &str, words: &[&str]) -> anyhow::Result<String> {
    match operation {
        "judge" => judge(alloc, words),
        "interactive" => interactive(alloc, words),
        "at_level" => judge_at_level(alloc, words),
        "steps" => steps(alloc, words),
        _ => no_case(alloc),
    }
}

/// `logon.judge DOCUMENT CONTROLLER DOMAIN USER WORKSTATION CHALLENGE NT NOW`: the verdict.
fn judge(alloc: Global, words: &[&str]) -> anyhow::Result<String> {
    let info = info(alloc, words)?;
    let mut table = table(alloc, word(words, 1))?;
    verdict(alloc, &mut table, words, &info)
}
