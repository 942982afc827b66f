//! The words of a command by `clap`.

ghost use Rattle.std.specs.Prelude.{◌≡◌, ◌≢◌, ◌≤◌, true, false, length, IfOk, map, Ok};
ghost use Rattle.std.specs.String.{string_bytes};
ghost use Rattle.clap.specs.Words.{app_of, rule_of, found_of, rows_of, is_simple_and_free, with_rule};
ghost use Rattle.nt_words.specs.Jobs.{form, rows_by, rows_of_values, is_led_by};
ghost use Rattle.nt_words.specs.Words.{GivesRows, ReadsBy, ReadsRows, option_rule, plain_app, app_with};

use crate::options::{OptionForm, WordsRefused, first_misfit};
use clap::error::ErrorKind;
use clap::{Arg, ArgAction, ArgMatches, Command};
use std::alloc::{AllocError, Global};

/// What the matches of a command that leads the words are: those whose values are all right, or the first refusal.
pub(crate) fn read_words<'a>(
    alloc: Global,
    name: &'a str,
    options: &[OptionForm<'a>],
    words: &'a [String],
) -> Result<ArgMatches<'a>, WordsRefused>
    requires simple { is_simple_and_free (app_with name.now options.now) ≡ true }
    requires few { length options.now ≤ 100 }
    requires led { is_led_by name.now (map string_bytes words.now) ≡ true }
    ensures { let command = form name.entry.now options.now in
        ReadsRows (rows_by command (map string_bytes words.now)) result }
{
    let command = match command_of(alloc, name, options) {
        Ok(command) => command,
        Err(_) => return Err(WordsRefused::Memory),
    };
    match read_by(command, words) {
        Ok(matches) => judge(matches, options),
        Err(refused) => Err(refused),
    }
}

/// The matches where each value is right. No memory is looked for.
fn judge<'a>(
    matches: ArgMatches<'a>,
    options: &[OptionForm<'a>],
) -> Result<ArgMatches<'a>, WordsRefused>
    requires { length options.now ≤ 100 }
    ensures { GivesRows (rows_of_values options.now (rows_of (found_of matches.entry))) result }
{
    match first_misfit(&matches, options, 1) {
        Some(number) => Err(WordsRefused::BadWords(number)),
        None => Ok(matches),
    }
}

/// The command of these options, as `clap` has it.
fn command_of<'a>(
    alloc: Global,
    name: &'a str,
    options: &[OptionForm<'a>],
) -> Result<Command<'a>, AllocError>
    ensures { IfOk result (λ command. app_of command ≡ app_with name.entry.now options.now) }
{
    let mut command = bare(alloc, name);
    let mut rest = options;
    while let [option, after @ ..] = rest {
        command = command.arg(argument(alloc, option))?;
        rest = after;
    }
    Ok(command)
}

/// A command without help.
fn bare<'a>(alloc: Global, name: &'a str) -> Command<'a>
    ensures { app_of result ≡ plain_app name.entry.now }
{
    Command::new(alloc, name).disable_help_flag(true)
}

/// A long option that takes one value.
fn argument<'a>(alloc: Global, option: &OptionForm<'a>) -> Arg<'a>
    ensures rule { rule_of result ≡ option_rule option.now }
    ensures local { result.global ≡ false }
{
    Arg::new(alloc, option.name())
        .long(option.name())
        .required(option.is_needed())
        .action(ArgAction::Set)
}

/// Reads the words by the command.
fn read_by<'a>(command: Command<'a>, words: &'a [String]) -> Result<ArgMatches<'a>, WordsRefused>
    requires { is_simple_and_free (app_of command) ≡ true }
    ensures { ReadsBy (app_of command.entry) (map string_bytes words.now) result }
{
    match command.try_get_matches_from(words) {
        Ok(matches) => Ok(matches),
        Err(error) => Err(refused(error.kind())),
    }
}

/// Why words weren't read, by `clap`'s kind of error.
fn refused(kind: ErrorKind) -> WordsRefused
    ensures memory { kind ≡ ErrorKind.OutOfMemory → result ≡ WordsRefused.Memory }
    ensures fault { kind ≢ ErrorKind.OutOfMemory → result ≡ WordsRefused.BadWords 0 }
{
    match kind {
        ErrorKind::OutOfMemory => WordsRefused::Memory,
        _ => WordsRefused::BadWords(0),
    }
}
