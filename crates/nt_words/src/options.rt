//! The options of a command and the kinds of their values.

ghost use Rattle.std.specs.Prelude.{◌≡◌, ◌+◌, ◌≤◌, ◌<◌, ◌^◌, ℕ, length, IsTrue, option_map, Some};
ghost use Rattle.std.specs.Char.{is_ascii_digit};
ghost use Rattle.std.specs.Int.{is_in_range};
ghost use Rattle.std.specs.List.{list_all};
ghost use Rattle.std.specs.Str.Parse.{digits_value};
ghost use Rattle.clap.specs.Words.{first_of, found_of, rows_of};
ghost use Rattle.wire_base.specs.Decimal.{number_of_bits};
ghost use Rattle.wire_base.specs.Names.{is_name, is_name_byte};
ghost use Rattle.nt_words.specs.Jobs.{text_at, number_at};
ghost use Rattle.nt_words.specs.Options.{choice, fits, is_text, suits, first_misfit, number_of};

use clap::ArgMatches;
use std::alloc::AllocError;
use std::marker::Model;
use wire_base::are_digits;

/// Why words weren't read.
#[derive(Clone, Copy, Debug, PartialEq, Eq)]
pub enum WordsRefused {
    /// 0 where they aren't the words of the command, else the number of the first option whose value isn't of its kind.
    BadWords(u32),
    /// No memory was found.
    Memory,
}

impl From<AllocError> for WordsRefused {
    ghost use Rattle.std.specs.Prelude.{◌≡◌};
    ghost use Rattle.nt_words.specs.declared.options.WordsRefused.TheVariants as refusals;

    ghost from_gives = { λ _ refused. refused ≡ refusals.Memory };

    fn from(_error: AllocError) -> WordsRefused {
        WordsRefused::Memory
    }
}

/// What the value of an option must be.
#[derive(Clone, Copy, Debug, PartialEq, Eq)]
pub enum Kind {
    /// 1 to 255 bytes.
    Address,
    /// 1 to 64 bytes of printable ASCII or spaces.
    Name,
    /// The name of a file: 1 to 4,096 bytes.
    File,
    /// 1 to 10 decimal digits, and at most this number.
    Number(u32),
    /// `connect`, `integrity` or `privacy`.
    Level,
    /// `v1`, `v1ess` or `v2`, and `v1` only where the option `level` is `connect`.
    Auth,
    /// `on` or `off`.
    Switch,
}

/// An option of a command.
#[derive(Debug, Drop)]
pub struct OptionForm<'a> {
    name: &'a str,
    kind: Kind,
    needed: bool,
}

impl<'a> Model for OptionForm<'a> {
    ghost use Rattle.nt_words.specs.Options.{Choice};

    ghost Value = { Choice };

    ghost view = { λ o. record { name = o.name.now; kind = o.kind; needed = o.needed } };
}

impl<'a> OptionForm<'a> {
    /// The option of this name.
    pub fn new(name: &'a str, kind: Kind, needed: bool) -> OptionForm<'a>
        ensures { result ≡ choice name.entry.now kind needed }
    {
        OptionForm { name, kind, needed }
    }

    /// The option's name.
    pub fn name(&self) -> &'a str
        ensures { result.now ≡ self.now.name }
    {
        self.name
    }

    /// Whether the option must be given.
    pub fn is_needed(&self) -> bool
        ensures { result ≡ self.now.needed }
    {
        self.needed
    }

    /// Whether the option's value, or that it has none, is right.
    pub fn suits(&self, matches: &ArgMatches, value: Option<&str>) -> bool
        ensures { let rows = rows_of (found_of matches.now) in
            result ≡ suits rows self.now (option_map (λ s. s.now) value.entry) }
    {
        match value {
            Some(text) => fits(matches, self.kind, text),
            None => !self.needed,
        }
    }
}

/// The number of the first option whose value isn't right, where the first option has this number.
pub(crate) fn first_misfit(matches: &ArgMatches, options: &[OptionForm], first: u32) -> Option<u32>
    requires { first + length options.now ≤ 1000 }
    ensures { result ≡ first_misfit first options.now (rows_of (found_of matches.now)) }
{
    let mut number = first;
    let mut rest = options;
    while let [option, after @ ..] = rest {
        if !option.suits(matches, value(matches, option.name())) {
            return Some(number);
        }
        number += 1;
        rest = after;
    }
    None
}

/// The value of an option.
pub(crate) fn value<'a>(matches: &ArgMatches<'a>, name: &str) -> Option<&'a str>
    ensures { option_map (λ s. s.now) result ≡ first_of name.now (rows_of (found_of matches.now)) }
{
    matches.get_str(name)
}

/// The text of an option that must be given.
pub(crate) fn text<'a>(matches: &ArgMatches<'a>, name: &str) -> &'a str
    ensures { result.now ≡ text_at (rows_of (found_of matches.now)) name.now }
{
    value(matches, name).unwrap_or("")
}

/// The number of an option, or this one where it isn't given.
pub(crate) fn number(matches: &ArgMatches, name: &str, absent: u32) -> u32
    ensures { result ≡ number_at (rows_of (found_of matches.now)) name.now absent }
{
    match value(matches, name) {
        Some(text) => number_of(text).unwrap_or(0),
        None => absent,
    }
}

/// Whether the text is a value of the kind.
fn fits(matches: &ArgMatches, kind: Kind, text: &str) -> bool
    ensures { result ≡ fits (rows_of (found_of matches.now)) kind text.now }
{
    match kind {
        Kind::Address => is_between(text, 255),
        Kind::Name => is_between(text, 64) && is_printable(text),
        Kind::File => is_between(text, 4096),
        Kind::Number(most) => match number_of(text) {
            Some(number) => number <= most,
            None => false,
        },
        Kind::Level => text == "connect" || text == "integrity" || text == "privacy",
        Kind::Auth => {
            if text == "v1" {
                is_text(value(matches, "level"), "connect")
            } else {
                text == "v1ess" || text == "v2"
            }
        }
        Kind::Switch => text == "on" || text == "off",
    }
}

/// Whether an option has this value.
fn is_text(value: Option<&str>, text: &str) -> bool
    ensures { result ≡ is_text text.now (option_map (λ s. s.now) value.entry) }
{
    match value {
        Some(other) => other == text,
        None => false,
    }
}

/// Whether a text has 1 byte to that many.
fn is_between(text: &str, most: usize) -> bool
    ensures { result ≡ is_in_range 1 most (length text.now) }
{
    let length = text.len();
    1 <= length && length <= most
}

/// Whether a text is a name.
fn is_printable(text: &str) -> bool
    ensures { result ≡ is_name text.now }
{
    text.len() <= 64 && are_name_bytes(text.as_bytes())
}

/// Whether each byte is one of a name.
fn are_name_bytes(text: &[u8]) -> bool
    ensures { result ≡ list_all is_name_byte text.now }
{
    text.iter().all(|byte| (0x20..=0x7E).contains(byte))
}

/// The number that 1 to 10 digits write.
#[tactic(auto, unfolding(crate::specs::Options::number_of))]
pub(crate) fn number_of(text: &str) -> Option<u32>
    ensures { result ≡ number_of text.now }
{
    if is_between(text, 10) && are_digits(text.as_bytes()) {
        digits_as_number(text)
    } else {
        None
    }
}

/// The number of 1 to 10 digits.
#[tactic(auto, using(wire_base::proofs::DecimalLaws::parsing))]
fn digits_as_number(text: &str) -> Option<u32>
    requires some { 0 < length text.now }
    requires digits { IsTrue (list_all is_ascii_digit text.now) }
    ensures { result ≡ number_of_bits 32 (digits_value 10 text.now) }
{
    text.parse::<u32>().ok()
}
