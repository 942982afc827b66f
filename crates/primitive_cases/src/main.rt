//! Cases of the primitives: DES, digests, RC4, channel keys, authenticators, responses and sessions.
//!
//! Each line of the input is an operation, as `des.block8`, and its values, as `case_words` has them; each line of the
//! output is what the operation gives.
#![tactic(auto)]

mod channel;
mod des;
mod digests;
mod netlogon;
mod rc4;
mod responses;
mod seal;
mod secrets;
mod sequence;

use case_words::{answer_lines, no_case, word};
use std::alloc::Global;

/// What a line's operation gives: the part of its name before the point is the file that has it.
fn answer(alloc: Global, words: &[&str]) -> anyhow::Result<String> {
    let (part, operation) = word(words, 0).split_once('.').unwrap_or(("", ""));
    match part {
        "des" => des::answer(alloc, operation, words),
        "digest" => digests::answer(alloc, operation, words),
        "rc4" => rc4::answer(alloc, operation, words),
        "channel" => channel::answer(alloc, operation, words),
        "sequence" => sequence::answer(alloc, operation, words),
        "responses" => responses::answer(alloc, operation, words),
        "seal" => seal::run(alloc, words),
        "netlogon" => netlogon::run(alloc, words),
        "secrets" => secrets::answer(alloc, operation, words),
        _ => no_case(alloc),
    }
}

fn main(rt: HostRuntime) -> anyhow::Result<()> {
    answer_lines(rt, answer)
}
