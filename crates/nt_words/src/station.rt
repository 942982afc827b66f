//! The words of `nt_logon station`.

ghost use Rattle.std.specs.Prelude.{◌≡◌, codes, map, true};
ghost use Rattle.std.specs.String.{string_bytes};
ghost use Rattle.wire_base.specs.Memory.{UpToMemory};
ghost use Rattle.wire_base.specs.Names.{IsName};
ghost use Rattle.nt_words.specs.Forms.{IsAddress};
ghost use Rattle.nt_words.specs.Jobs.{is_led_by, station_form, station_job};

use crate::options::{Kind, OptionForm, WordsRefused, number, text};
use crate::words::read_words;
use std::alloc::Global;
use std::marker::Model;

/// What `nt_logon station` is asked for.
#[derive(Debug, Drop)]
pub struct StationWords<'a> {
    controller: &'a str,
    computer: &'a str,
    secret: &'a str,
    domain: &'a str,
    user: &'a str,
    hash: &'a str,
    seed: &'a str,
    boot: u32,
}

impl<'a> Model for StationWords<'a> {
    ghost use Rattle.nt_words.specs.Forms.{IsStationForm};
    ghost use Rattle.nt_words.specs.Jobs.{StationJob};

    ghost Value = { StationJob };

    ghost view = { λ j. record {
      controller = j.controller.now;
      computer = j.computer.now;
      secret = j.secret.now;
      domain = j.domain.now;
      user = j.user.now;
      hash = j.hash.now;
      seed = j.seed.now;
      boot = j.boot;
    } };

    ghost invariant = { λ j. IsStationForm (record {
      controller = j.controller.now;
      computer = j.computer.now;
      secret = j.secret.now;
      domain = j.domain.now;
      user = j.user.now;
      hash = j.hash.now;
      seed = j.seed.now;
      boot = j.boot;
    }) };
}

impl<'a> StationWords<'a> {
    /// The domain controller's address.
    pub fn controller(&self) -> &'a str
        ensures value { result.now ≡ self.now.controller }
        ensures form { IsAddress result.now }
    {
        self.controller
    }

    /// The workstation's name.
    pub fn computer(&self) -> &'a str
        ensures value { result.now ≡ self.now.computer }
        ensures form { IsName result.now }
    {
        self.computer
    }

    /// The name of the user's domain.
    pub fn domain(&self) -> &'a str
        ensures value { result.now ≡ self.now.domain }
        ensures form { IsName result.now }
    {
        self.domain
    }

    /// The user's name.
    pub fn user(&self) -> &'a str
        ensures value { result.now ≡ self.now.user }
        ensures form { IsName result.now }
    {
        self.user
    }

    /// The number of the boot.
    pub fn boot(&self) -> u32
        ensures { result ≡ self.now.boot }
    {
        self.boot
    }

    /// The name of the file of the machine's secret.
    pub(crate) fn secret_file(&self) -> &'a str
        ensures { result.now ≡ self.now.secret }
    {
        self.secret
    }

    /// The name of the file of the user's hash.
    pub(crate) fn hash_file(&self) -> &'a str
        ensures { result.now ≡ self.now.hash }
    {
        self.hash
    }

    /// The name of the seed's file.
    pub(crate) fn seed_file(&self) -> &'a str
        ensures { result.now ≡ self.now.seed }
    {
        self.seed
    }
}

/// The job of `nt_logon station`.
#[tactic(auto, using(crate::proofs::Commands::station_is_simple), unfolding(crate::specs::Jobs::station_job))]
pub(crate) fn station_words<'a>(
    alloc: Global,
    words: &'a [String],
) -> Result<StationWords<'a>, WordsRefused>
    requires { is_led_by (codes "station") (map string_bytes words.now) ≡ true }
    ensures { UpToMemory WordsRefused.Memory result
        (station_job (map string_bytes words.now)) }
{
    let options = station_options();
    let matches = read_words(alloc, "station", &options, words)?;
    Ok(StationWords {
        controller: text(&matches, "controller"),
        computer: text(&matches, "computer"),
        secret: text(&matches, "secret"),
        domain: text(&matches, "domain"),
        user: text(&matches, "user"),
        hash: text(&matches, "hash"),
        seed: text(&matches, "seed"),
        boot: number(&matches, "boot", 0),
    })
}

/// The options of `nt_logon station`.
fn station_options() -> [OptionForm<'static>; 8]
    ensures { result ≡ station_form.choices }
{
    [
        OptionForm::new("controller", Kind::Address, true),
        OptionForm::new("computer", Kind::Name, true),
        OptionForm::new("secret", Kind::File, true),
        OptionForm::new("domain", Kind::Name, true),
        OptionForm::new("user", Kind::Name, true),
        OptionForm::new("hash", Kind::File, true),
        OptionForm::new("seed", Kind::File, true),
        OptionForm::new("boot", Kind::Number(4294967295), true),
    ]
}
