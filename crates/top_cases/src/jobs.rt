//! Cases of `nt_words`: what words ask for, and what files come to.

use crate::line::{command_line, role};
use crate::top::text_of_exit;
use case_words::{
    add_answer, add_debug, blob, debug_text, no_case, number_list, ok_text, refusal_text, told,
    word,
};
use nt_top::{Exit, Role};
use nt_words::{
    ControllerSetup, FilesRefused, Job, MemberSetup, SecretSetup, Setup, StationSetup, job_of,
    set_up,
};
use outside::{MapFiles, Texts};
use std::alloc::Global;
use wire_base::Blob;

/// `job ROLE WORD..`: what the words ask for, or why they aren't of the form.
fn job_case(alloc: Global, words: &[&str]) -> anyhow::Result<String> {
    let command = command_line(alloc, words, 2)?;
    match job_of(alloc, role(word(words, 1)), &command) {
        Ok(Job::Service(service)) => ok_text(alloc, service),
        Ok(Job::Command(command)) => ok_text(alloc, command),
        Err(refused) => refusal_text(alloc, refused),
    }
}

/// A file `NAME=BYTES`.
fn file(alloc: Global, part: &str) -> anyhow::Result<(Blob, Blob)> {
    let (name, content) = part.split_once('=').unwrap_or((part, "-"));
    let content = blob(alloc, content)?;
    let name = Blob::copy(alloc, name.as_bytes())?;
    Ok((name, content))
}

/// Files between commas, or `-` for none.
fn texts(alloc: Global, word: &str) -> anyhow::Result<Texts> {
    let mut texts = Texts::new(alloc);
    if word != "-" {
        for part in word.split(',') {
            let text = file(alloc, part)?;
            texts.push(text)?;
        }
    }
    Ok(texts)
}

/// The files of a word, of which the calls of another word fail.
pub(crate) fn files(alloc: Global, word: &str, failing: &str) -> anyhow::Result<MapFiles> {
    let failing = number_list(alloc, failing)?;
    let texts = texts(alloc, word)?;
    Ok(MapFiles::new(alloc, texts, failing))
}

/// The domain of a table, the seed, and the table's changed secrets.
fn text_of_table(alloc: Global, files: ControllerSetup) -> anyhow::Result<String> {
    let (table, seed) = files.into_parts();
    let mut text = debug_text(alloc, table.domain())?;
    add_debug(alloc, &mut text, seed.as_slice())?;
    let secrets = table.secrets(alloc)?;
    add_debug(
        alloc,
        &mut text,
        str::from_utf8(secrets.bytes()).unwrap_or("no text"),
    )?;
    Ok(text)
}

/// The secrets that a member keeps, the seed, and the secret to change to.
fn text_of_secrets(alloc: Global, files: MemberSetup) -> anyhow::Result<String> {
    let (secrets, seed, change) = files.into_parts();
    let kept = secrets.text(alloc)?;
    let mut text = debug_text(alloc, str::from_utf8(kept.bytes()).unwrap_or("no text"))?;
    add_debug(alloc, &mut text, seed.as_slice())?;
    add_debug(alloc, &mut text, change)?;
    Ok(text)
}

/// The secret, and the seed.
fn text_of_secret(alloc: Global, files: &SecretSetup) -> anyhow::Result<String> {
    let (secret, seed) = (files.secret(), files.seed());
    let mut text = debug_text(alloc, secret.as_slice())?;
    add_debug(alloc, &mut text, seed.as_slice())?;
    Ok(text)
}

/// A station's secret, hash and seed.
fn text_of_station(alloc: Global, files: &StationSetup) -> anyhow::Result<String> {
    let (secret, hash, seed) = (files.secret(), files.hash(), files.seed());
    let mut text = debug_text(alloc, secret.as_slice())?;
    add_debug(alloc, &mut text, hash.as_slice())?;
    add_debug(alloc, &mut text, seed.as_slice())?;
    Ok(text)
}

/// What a service starts from.
fn text_of_setup(alloc: Global, setup: Setup) -> anyhow::Result<String> {
    match setup {
        Setup::Controller(_, files) => text_of_table(alloc, files),
        Setup::Member(_, files) => text_of_secrets(alloc, files),
        Setup::Logon(_, files) => text_of_secret(alloc, &files),
        Setup::Station(_, files) => text_of_station(alloc, &files),
    }
}

/// What the files of a service come to.
fn text_of_files(alloc: Global, came: Result<Setup, FilesRefused>) -> anyhow::Result<String> {
    match came {
        Ok(setup) => text_of_setup(alloc, setup),
        Err(refused) => text_of_exit(alloc, &Exit::from(refused)),
    }
}

/// What the files of the words' job come to.
fn text_of_job(
    alloc: Global,
    role: Role,
    command: &[String],
    files: &mut MapFiles,
) -> anyhow::Result<String> {
    match job_of(alloc, role, command) {
        Ok(Job::Service(service)) => text_of_files(alloc, set_up(alloc, files, service)),
        Ok(Job::Command(_)) => Ok("no files".to_string(alloc)?),
        Err(refused) => text_of_exit(alloc, &Exit::from(refused)),
    }
}

/// `files ROLE FAILING FILES WORD..`: what the files of the words' job come to, where these calls of the files fail;
/// and whether all that was kept is still told.
fn files_case(alloc: Global, words: &[&str]) -> anyhow::Result<String> {
    let command = command_line(alloc, words, 4)?;
    let mut files = files(alloc, word(words, 3), word(words, 2))?;
    let mut text = text_of_job(alloc, role(word(words, 1)), &command, &mut files)?;
    add_answer(&mut text, told(files.tells()))?;
    Ok(text)
}

/// What an operation gives.
pub(crate) fn answer(alloc: Global, operation: &str, words: &[&str]) -> anyhow::Result<String> {
    match operation {
        "job" => job_case(alloc, words),
        "files" => files_case(alloc, words),
        _ => no_case(alloc),
    }
}
