//! The text of secrets, read.

ghost use Rattle.std.specs.Prelude.{◌≡◌, ◌⊎◌, ◌<◌, ◌∷◌, None, Some, length, option_map, All, IfOk, IfSome, IfNone, MatchResult, false};
ghost use Rattle.std.specs.List.{position, slice_split};
ghost use Rattle.account_table.specs.Secrets.{is_end, is_line, is_newline, is_set, lines_of, setting_of, settings_of};

use crate::accounts::Accounts;
use crate::refused::ApplyRefused;
use hex::FromHex;
use std::alloc::Global;
use wire_base::List;

/// The place of an account, and the hash that is set there.
pub(crate) type Setting = (u32, [u8; 16]);

/// What a text sets, each account once.
#[tactic(auto, unfolding(crate::specs::Secrets::settings_of), using(crate::proofs::SecretLaws::lining))]
pub(crate) fn read_settings(
    alloc: Global,
    accounts: &Accounts,
    text: &[u8],
) -> Result<List<Setting>, ApplyRefused>
    ensures exact { MatchResult result
        (λ settings. settings_of accounts.now text.now ≡ Some settings)
        (λ refused. (refused ≡ ApplyRefused.Memory)
        ⊎ ((refused ≡ ApplyRefused.NotSecrets) × (settings_of accounts.now text.now ≡ None))) }
    ensures within { IfOk result (All (λ setting. setting.0 < length accounts.now)) }
{
    let mut settings = List::new(alloc);
    let mut rest = Some(text);
    while let Some(lines) = rest {
        let (line, after) = first_line(lines);
        if is_end(line, after) {
            return Ok(settings);
        }
        let Some(setting) = read_setting(accounts, line) else {
            return Err(ApplyRefused::NotSecrets);
        };
        if is_set(setting.0, settings.items()) {
            return Err(ApplyRefused::NotSecrets);
        }
        settings.push(setting)?;
        rest = after;
    }
    Ok(settings)
}

/// The first line of a text, and what stands behind its newline, where it has one.
#[tactic(auto, using(crate::proofs::SecretLaws::splitting))]
fn first_line(text: &[u8]) -> (&[u8], Option<&[u8]>)
    ensures parts { slice_split is_newline text.now
        ≡ result.0.now ∷ lines_of (option_map (λ t. t.now) result.1) }
    ensures shorter { IfSome result.1 (λ rest. length rest.now < length text.now) }
{
    match newline_at(text) {
        Some(at) => (&text[..at], Some(&text[at + 1..])),
        None => (text, None),
    }
}

/// The place of the first newline.
fn newline_at(text: &[u8]) -> Option<usize>
    ensures value { result ≡ position is_newline text.now }
    ensures none { IfNone result (All (λ byte. is_newline byte ≡ false) text.now) }
{
    text.iter().position(|byte| *byte == b'\n')
}

/// Whether the line is what stands behind the last newline, and that is nothing.
#[tactic(auto, using(crate::proofs::SecretLaws::ending))]
fn is_end(line: &[u8], after: Option<&[u8]>) -> bool
    ensures { result ≡ is_end line.now (lines_of (option_map (λ t. t.now) after.entry)) }
{
    match after {
        Some(_) => false,
        None => line.is_empty(),
    }
}

/// What a line sets.
#[tactic(auto, unfolding(crate::specs::Secrets::setting_of))]
fn read_setting(accounts: &Accounts, line: &[u8]) -> Option<Setting>
    ensures value { result ≡ setting_of accounts.now line.now }
    ensures within { IfSome result (λ setting. setting.0 < length accounts.now) }
{
    if !is_line(line) {
        return None;
    }
    let place = accounts.computer_place(&line[..line.len() - 33])?;
    let hash = <[u8; 16]>::from_hex(&line[line.len() - 32..]).ok()?;
    Some((place, hash))
}

/// Whether a space stands before the last 32 bytes.
fn is_line(line: &[u8]) -> bool
    ensures { result ≡ is_line line.now }
{
    33 <= line.len() && line[line.len() - 33] == b' '
}

/// Whether the account at the place is among those that are set.
fn is_set(place: u32, done: &[Setting]) -> bool
    ensures { result ≡ is_set place done.now }
{
    done.iter().any(|setting| setting.0 == place)
}
