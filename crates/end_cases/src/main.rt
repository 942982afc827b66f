//! Cases of ends, of what their links have in common, of calls at a controller, of the loop that serves ends, and of
//! worlds of ends.
//!
//! Each line of the input is an operation, as `loop.serve`, and its values, as `case_words` has them; each line of the
//! output is what the operation gives.
#![tactic(auto)]

mod calls;
mod clients;
mod controllers;
mod hearing;
mod links;
mod members;
mod scenes;
mod sealed_controllers;
mod sealed_turns;
mod sealing;
mod serves;
mod small;
mod stations;
mod turning;
mod turns;
mod worlds;

use case_words::{answer_lines, no_case, word};
use std::alloc::Global;

/// What a line's operation gives: the part of its name before the point is the file that has it.
fn answer(alloc: Global, words: &[&str]) -> anyhow::Result<String> {
    let (part, operation) = word(words, 0).split_once('.').unwrap_or(("", ""));
    match part {
        "calls" => calls::answer(alloc, operation, words),
        "client" => clients::run(alloc, words),
        "controller" => controllers::answer(alloc, operation, words),
        "links" => links::answer(alloc, operation, words),
        "member" => members::answer(alloc, operation, words),
        "station" => stations::run(alloc, words),
        "loop" => serves::answer(alloc, operation, words),
        "sealing" => sealing::answer(alloc, operation, words),
        "turning" => turning::answer(alloc, operation, words),
        "turns" => turns::answer(alloc, operation, words),
        "world" => worlds::answer(alloc, operation, words),
        _ => no_case(alloc),
    }
}

fn main(rt: HostRuntime) -> anyhow::Result<()> {
    answer_lines(rt, answer)
}
