//! Cases of the account table, the verdict on a logon, sessions, and the outside in memory.
//!
//! Each line of the input is an operation, as `table.find`, and its values, as `case_words` has them; each line of the
//! output is what the operation gives.
#![tactic(auto)]

mod logons;
mod scripts;
mod sessions;
mod tables;

use case_words::{answer_lines, no_case, word};
use std::alloc::Global;

/// What a line's operation gives: the part of its name before the point is the file that has it.
fn answer(alloc: Global, words: &[&str]) -> anyhow::Result<String> {
    let (part, operation) = word(words, 0).split_once('.').unwrap_or(("", ""));
    match part {
        "table" => tables::answer(alloc, operation, words),
        "logon" => logons::answer(alloc, operation, words),
        "sessions" => sessions::answer(alloc, words),
        "outside" => scripts::answer(alloc, operation, words),
        _ => no_case(alloc),
    }
}

fn main(rt: HostRuntime) -> anyhow::Result<()> {
    answer_lines(rt, answer)
}
