//! The words of `nt_logon drill`.

ghost use Rattle.std.specs.Prelude.{◌≡◌, ◌≤◌, codes, map, true};
ghost use Rattle.std.specs.String.{string_bytes};
ghost use Rattle.wire_base.specs.Memory.{UpToMemory};
ghost use Rattle.nt_words.specs.Jobs.{is_led_by, drill_form, drill_job};

use crate::options::{Kind, OptionForm, WordsRefused, number};
use crate::words::read_words;
use std::alloc::Global;
use std::marker::Model;

/// What `nt_logon drill` is asked for.
#[derive(Debug, Drop)]
pub struct DrillWords {
    number: u32,
    moves: u32,
}

impl Model for DrillWords {
    ghost use Rattle.nt_words.specs.Forms.{IsDrillForm};
    ghost use Rattle.nt_words.specs.Jobs.{DrillJob};

    ghost Value = { DrillJob };

    ghost view = { λ j. record { number = j.number; moves = j.moves } };

    ghost invariant = { λ j. IsDrillForm (record { number = j.number; moves = j.moves }) };
}

impl DrillWords {
    /// The number that the moves are made from.
    pub fn number(&self) -> u32
        ensures { result ≡ self.now.number }
    {
        self.number
    }

    /// How many moves.
    pub fn moves(&self) -> u32
        ensures value { result ≡ self.now.moves }
        ensures form { result ≤ 100000 }
    {
        self.moves
    }
}

/// The job of `nt_logon drill`, or the number of the word that isn't of its form.
#[tactic(auto, using(crate::proofs::Commands::drill_is_simple), unfolding(crate::specs::Jobs::drill_job))]
pub(crate) fn drill_words(alloc: Global, words: &[String]) -> Result<DrillWords, WordsRefused>
    requires { is_led_by (codes "drill") (map string_bytes words.now) ≡ true }
    ensures { UpToMemory WordsRefused.Memory result
        (drill_job (map string_bytes words.now)) }
{
    let options = drill_options();
    let matches = read_words(alloc, "drill", &options, words)?;
    Ok(DrillWords {
        number: number(&matches, "number", 0),
        moves: number(&matches, "moves", 0),
    })
}

/// The options of `nt_logon drill`.
fn drill_options() -> [OptionForm<'static>; 2]
    ensures { result ≡ drill_form.choices }
{
    [
        OptionForm::new("number", Kind::Number(4294967295), true),
        OptionForm::new("moves", Kind::Number(100000), true),
    ]
}
