//! Cases of what stands on the wire: numbers, texts, names, NTLM's messages, RPC's units, NDR's items and the stubs of
//! Netlogon and of the memo interface.
//!
//! Each line of the input is an operation, as `units.read`, and its values, as `case_words` has them; each line of the
//! output is what the operation gives.
#![tactic(auto)]

mod base;
mod interactive;
mod joining;
mod maps;
mod memo;
mod messages;
mod ndr;
mod ndr_writing;
mod outcomes;
mod pairs;
mod set;
mod streams;
mod stubs;
mod unit_words;
mod units;

use case_words::{answer_lines, no_case, word};
use std::alloc::Global;

/// What a line's operation gives: the part of its name before the point is the file that has it.
fn answer(alloc: Global, words: &[&str]) -> anyhow::Result<String> {
    let (part, operation) = word(words, 0).split_once('.').unwrap_or(("", ""));
    match part {
        "base" => base::answer(alloc, operation, words),
        "messages" => messages::answer(alloc, operation, words),
        "units" => units::answer(alloc, operation, words),
        "ndr" => ndr::answer(alloc, operation, words),
        "stubs" => stubs::answer(alloc, operation, words),
        "interactive" => interactive::answer(alloc, operation, words),
        "memo" => memo::answer(alloc, operation, words),
        "set" => set::answer(alloc, operation, words),
        _ => no_case(alloc),
    }
}

fn main(rt: HostRuntime) -> anyhow::Result<()> {
    answer_lines(rt, answer)
}
