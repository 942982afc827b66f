//! The command `show`.

ghost use Rattle.std.specs.Prelude.{◌≡◌, ◌++◌, ◌⊎◌, Ok, OnOk, IfOk, IsErr, MatchResult};
ghost use Rattle.std.specs.List.{flat_map};
ghost use Rattle.wire_base.specs.Memory.{UpToMemory};
ghost use Rattle.wire_base.specs.Numbers.{u32_of};
ghost use Rattle.nt_top.specs.Show.{value_text, field_line, head_lines, negotiate_lines, pair_line, challenge_lines, authenticate_lines, info_pairs, lines_by, lines_from, shown, shown_challenge, show_answer};

use crate::answer::Answer;
use crate::exit::Exit;
use crate::words::{bytes_from_hex, message_exit, pairs_exit};
use ntlm_messages::{
    Authenticate, Challenge, Negotiate, Pairs, read_authenticate, read_challenge, read_negotiate,
    read_pairs,
};
use std::alloc::{AllocError, Global};
use wire_base::{Blob, u32_at};

/// What `show` comes to for a message in hex: its lines.
#[tactic(auto, unfolding(crate::specs::Show::show_answer))]
pub(crate) fn show(alloc: Global, message: &str) -> Result<Answer, Exit>
    ensures { UpToMemory Exit.NoMemory result (show_answer message.now) }
{
    let bytes = bytes_from_hex(alloc, 1, message)?;
    let lines = message_lines(alloc, &bytes)?;
    Ok(Answer {
        refused: None,
        lines,
    })
}

/// The lines of a message, by the type that it says.
#[tactic(auto, unfolding(crate::specs::Show::lines_by))]
fn message_lines(alloc: Global, bytes: &[u8]) -> Result<Blob, Exit>
    ensures { UpToMemory Exit.NoMemory result (lines_from (u32_of bytes.now 8) bytes.now) }
{
    match u32_at(bytes, 8) {
        Some(1) => {
            let message = read_negotiate(alloc, bytes).map_err(|refused| message_exit(refused, 1))?;
            Ok(negotiate_lines(alloc, &message)?)
        }
        Some(2) => {
            let message = read_challenge(alloc, bytes).map_err(|refused| message_exit(refused, 1))?;
            show_challenge(alloc, &message)
        }
        Some(3) => {
            let message = read_authenticate(alloc, bytes).map_err(|refused| message_exit(
                refused, 1,
            ))?;
            Ok(authenticate_lines(alloc, &message)?)
        }
        _ => Err(Exit::BadInput(1)),
    }
}

/// The lines of a CHALLENGE, whose target information is to be empty or a list of pairs.
#[tactic(auto, unfolding(crate::specs::Show::shown_challenge))]
fn show_challenge(alloc: Global, message: &Challenge) -> Result<Blob, Exit>
    ensures { UpToMemory Exit.NoMemory result (shown_challenge message.now) }
{
    let pairs = info_pairs(alloc, message.info.bytes())?;
    Ok(challenge_lines(alloc, message, &pairs)?)
}

/// The pairs of a target information, which may be empty.
fn info_pairs(alloc: Global, info: &[u8]) -> Result<Pairs, Exit>
    ensures { MatchResult result (λ pairs. info_pairs info.now ≡ Ok pairs)
        (λ exit. (exit ≡ Exit.NoMemory) ⊎
        ((exit ≡ Exit.BadInput 1) × IsErr (info_pairs info.now))) }
{
    if info.is_empty() {
        return Ok(Pairs::new(alloc));
    }
    match read_pairs(alloc, info) {
        Ok(pairs) => Ok(pairs),
        Err(refused) => Err(pairs_exit(refused, 1)),
    }
}

#[tactic(auto, unfolding(crate::specs::Show::negotiate_lines))]
fn negotiate_lines(alloc: Global, message: &Negotiate) -> Result<Blob, AllocError>
    ensures { IfOk result (λ lines. lines ≡ negotiate_lines message.now) }
{
    let mut lines = Vec::new(alloc);
    put_head(&mut lines, 1, message.flags)?;
    put_field(&mut lines, "domain", message.domain.bytes())?;
    put_field(&mut lines, "workstation", message.workstation.bytes())?;
    Ok(Blob::from_vec(lines))
}

#[tactic(auto, unfolding(crate::specs::Show::challenge_lines))]
fn challenge_lines(alloc: Global, message: &Challenge, pairs: &Pairs) -> Result<Blob, AllocError>
    ensures { IfOk result (λ lines. lines ≡ challenge_lines message.now pairs.now) }
{
    let mut lines = Vec::new(alloc);
    put_head(&mut lines, 2, message.flags)?;
    put_field(&mut lines, "target", message.target.bytes())?;
    put_field(&mut lines, "challenge", &message.challenge)?;
    put_pairs(&mut lines, pairs.items())?;
    Ok(Blob::from_vec(lines))
}

#[tactic(auto, unfolding(crate::specs::Show::authenticate_lines))]
fn authenticate_lines(alloc: Global, message: &Authenticate) -> Result<Blob, AllocError>
    ensures { IfOk result (λ lines. lines ≡ authenticate_lines message.now) }
{
    let mut lines = Vec::new(alloc);
    put_head(&mut lines, 3, message.flags)?;
    put_field(&mut lines, "lm", message.lm.bytes())?;
    put_field(&mut lines, "nt", message.nt.bytes())?;
    put_field(&mut lines, "domain", message.domain.bytes())?;
    put_field(&mut lines, "user", message.user.bytes())?;
    put_field(&mut lines, "workstation", message.workstation.bytes())?;
    put_field(&mut lines, "key", message.key.bytes())?;
    Ok(Blob::from_vec(lines))
}

/// Adds the line of the type and that of the flags.
#[tactic(auto, unfolding(crate::specs::Show::head_lines))]
fn put_head(lines: &mut Vec<u8>, kind: u8, flags: u32) -> Result<(), AllocError>
    ensures { OnOk result (lines.new.items ≡ lines.old.items ++ head_lines kind flags) }
{
    let kind = format!(in *lines.allocator(); "type {kind}\n")?;
    lines.extend_from_slice(kind.as_bytes())?;
    put_field(lines, "flags", &flags.to_be_bytes())
}

/// Adds the lines of the pairs, in order.
fn put_pairs(lines: &mut Vec<u8>, pairs: &[(u16, Blob)]) -> Result<(), AllocError>
    ensures { OnOk result (lines.new.items ≡ lines.old.items ++ flat_map pair_line pairs.now) }
{
    for (id, value) in pairs {
        put_pair(lines, *id, value.bytes())?;
    }
    Ok(())
}

/// Adds the line of a pair.
#[tactic(auto, unfolding(crate::specs::Show::pair_line))]
fn put_pair(lines: &mut Vec<u8>, id: u16, value: &[u8]) -> Result<(), AllocError>
    ensures { OnOk result (lines.new.items ≡ lines.old.items ++ pair_line (id, value.now)) }
{
    let name = format!(in *lines.allocator(); "pair {id}")?;
    put_field(lines, name.as_str(), value)
}

/// Adds the line of a field: its name, and its value in hex, or a dash where that is empty.
fn put_field(lines: &mut Vec<u8>, name: &str, value: &[u8]) -> Result<(), AllocError>
    ensures { OnOk result (lines.new.items ≡ lines.old.items ++ field_line name.now value.now) }
{
    lines.extend_from_slice(name.as_bytes())?;
    lines.push(b' ')?;
    if value.is_empty() {
        lines.push(b'-')?;
    } else {
        let text = hex::encode(*lines.allocator(), value)?;
        lines.extend_from_slice(text.as_bytes())?;
    }
    lines.push(b'\n')?;
    Ok(())
}
