//! Cases of the top call: what a command line comes to over an outside in memory, what its words ask for, and what its
//! files come to.
//!
//! Each line of the input is an operation, as `top.run`, and its values, as `case_words` has them; each line of the
//! output is what the operation gives.
#![tactic(auto)]

mod in_memory;
mod jobs;
mod line;
mod narrow;
mod serves;
mod top;

use case_words::{answer_lines, no_case, word};
use std::alloc::Global;

/// What a line's operation gives: the part of its name before the point is the file that has it.
fn answer(alloc: Global, words: &[&str]) -> anyhow::Result<String> {
    let (part, operation) = word(words, 0).split_once('.').unwrap_or(("", ""));
    match part {
        "top" => top::answer(alloc, operation, words),
        "jobs" => jobs::answer(alloc, operation, words),
        "serves" => serves::answer(alloc, operation, words),
        _ => no_case(alloc),
    }
}

fn main(rt: HostRuntime) -> anyhow::Result<()> {
    answer_lines(rt, answer)
}
