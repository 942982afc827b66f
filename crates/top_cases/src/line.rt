//! The command line in a line of cases.

use case_words::{counted, word};
use nt_top::Role;
use std::alloc::Global;

/// The role of a name.
pub(crate) fn role(name: &str) -> Role {
    match name {
        "controller" => Role::Controller,
        "member" => Role::Member,
        _ => Role::Logon,
    }
}

/// A text of the command line: `-` is an empty one, and `COUNT*TEXT` so many times the text.
fn text(alloc: Global, part: &str) -> anyhow::Result<String> {
    let (count, part) = counted(part)?;
    let mut text = String::new(alloc);
    if part != "-" {
        for _ in 0..count {
            text.push_str(part)?;
        }
    }
    Ok(text)
}

/// The words of a command line, from this word of a line on.
pub(crate) fn command_line(
    alloc: Global,
    words: &[&str],
    from: usize,
) -> anyhow::Result<Vec<String>> {
    let mut owned = Vec::new(alloc);
    for at in from..words.len() {
        let text = text(alloc, word(words, at))?;
        owned.push(text)?;
    }
    Ok(owned)
}
