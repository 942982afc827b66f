//! The words of `nt_controller serve`.

ghost use Rattle.std.specs.Prelude.{◌≡◌, codes, map, option_map, true};
ghost use Rattle.std.specs.String.{string_bytes};
ghost use Rattle.wire_base.specs.Memory.{UpToMemory};
ghost use Rattle.wire_base.specs.Names.{IsName};
ghost use Rattle.nt_words.specs.Forms.{IsAddress};
ghost use Rattle.nt_words.specs.Jobs.{is_led_by, controller_form, controller_job};

use crate::options::{Kind, OptionForm, WordsRefused, number, text, value};
use crate::words::read_words;
use std::alloc::Global;
use std::marker::Model;

/// What `nt_controller serve` is asked for.
#[derive(Debug, Drop)]
pub struct ControllerWords<'a> {
    listen: &'a str,
    name: &'a str,
    table: &'a str,
    seed: &'a str,
    boot: u32,
    events: u32,
    secrets: Option<&'a str>,
}

impl<'a> Model for ControllerWords<'a> {
    ghost use Rattle.std.specs.Prelude.{option_map};
    ghost use Rattle.nt_words.specs.Forms.{IsControllerForm};
    ghost use Rattle.nt_words.specs.Jobs.{ControllerJob};

    ghost Value = { ControllerJob };

    ghost view = { λ j. record {
      listen = j.listen.now;
      name = j.name.now;
      table = j.table.now;
      seed = j.seed.now;
      boot = j.boot;
      events = j.events;
      secrets = option_map (λ s. s.now) j.secrets;
    } };

    ghost invariant = { λ j. IsControllerForm (record {
      listen = j.listen.now;
      name = j.name.now;
      table = j.table.now;
      seed = j.seed.now;
      boot = j.boot;
      events = j.events;
      secrets = option_map (λ s. s.now) j.secrets;
    }) };
}

impl<'a> ControllerWords<'a> {
    /// The address to listen at.
    pub fn listen(&self) -> &'a str
        ensures value { result.now ≡ self.now.listen }
        ensures form { IsAddress result.now }
    {
        self.listen
    }

    /// The controller's name.
    pub fn name(&self) -> &'a str
        ensures value { result.now ≡ self.now.name }
        ensures form { IsName result.now }
    {
        self.name
    }

    /// The number of the boot.
    pub fn boot(&self) -> u32
        ensures { result ≡ self.now.boot }
    {
        self.boot
    }

    /// How many events are taken.
    pub fn events(&self) -> u32
        ensures { result ≡ self.now.events }
    {
        self.events
    }

    /// The name of the file of changed secrets, where one is named.
    pub fn secrets(&self) -> Option<&'a str>
        ensures { option_map (λ s. s.now) result ≡ self.now.secrets }
    {
        self.secrets
    }

    /// The name of the table's file.
    pub(crate) fn table_file(&self) -> &'a str
        ensures { result.now ≡ self.now.table }
    {
        self.table
    }

    /// The name of the seed's file.
    pub(crate) fn seed_file(&self) -> &'a str
        ensures { result.now ≡ self.now.seed }
    {
        self.seed
    }
}

/// The job of `nt_controller serve`.
#[tactic(auto, using(crate::proofs::Commands::controller_is_simple), unfolding(crate::specs::Jobs::controller_job))]
pub(crate) fn controller_words<'a>(
    alloc: Global,
    words: &'a [String],
) -> Result<ControllerWords<'a>, WordsRefused>
    requires { is_led_by (codes "serve") (map string_bytes words.now) ≡ true }
    ensures { UpToMemory WordsRefused.Memory result
        (controller_job (map string_bytes words.now)) }
{
    let options = controller_options();
    let matches = read_words(alloc, "serve", &options, words)?;
    Ok(ControllerWords {
        listen: text(&matches, "listen"),
        name: text(&matches, "name"),
        table: text(&matches, "table"),
        seed: text(&matches, "seed"),
        boot: number(&matches, "boot", 0),
        events: number(&matches, "events", 4294967295),
        secrets: value(&matches, "secrets"),
    })
}

/// The options of `nt_controller serve`.
fn controller_options() -> [OptionForm<'static>; 7]
    ensures { result ≡ controller_form.choices }
{
    [
        OptionForm::new("listen", Kind::Address, true),
        OptionForm::new("name", Kind::Name, true),
        OptionForm::new("table", Kind::File, true),
        OptionForm::new("seed", Kind::File, true),
        OptionForm::new("boot", Kind::Number(4294967295), true),
        OptionForm::new("events", Kind::Number(4294967295), false),
        OptionForm::new("secrets", Kind::File, false),
    ]
}
