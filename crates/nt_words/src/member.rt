//! The words of `nt_member serve`.

ghost use Rattle.std.specs.Prelude.{◌≡◌, codes, map, option_map, true};
ghost use Rattle.std.specs.String.{string_bytes};
ghost use Rattle.wire_base.specs.Memory.{UpToMemory};
ghost use Rattle.wire_base.specs.Names.{IsName};
ghost use Rattle.nt_words.specs.Forms.{IsAddress};
ghost use Rattle.nt_words.specs.Jobs.{is_led_by, is_on, member_form, member_job};

use crate::options::{Kind, OptionForm, WordsRefused, number, text, value};
use crate::words::read_words;
use std::alloc::Global;
use std::marker::Model;

/// What `nt_member serve` is asked for.
#[derive(Debug, Drop)]
pub struct MemberWords<'a> {
    listen: &'a str,
    computer: &'a str,
    domain: &'a str,
    secret: &'a str,
    controller: &'a str,
    seed: &'a str,
    boot: u32,
    events: u32,
    change: Option<&'a str>,
    seal: bool,
}

impl<'a> Model for MemberWords<'a> {
    ghost use Rattle.std.specs.Prelude.{option_map};
    ghost use Rattle.nt_words.specs.Forms.{IsMemberForm};
    ghost use Rattle.nt_words.specs.Jobs.{MemberJob};

    ghost Value = { MemberJob };

    ghost view = { λ j. record {
      listen = j.listen.now;
      computer = j.computer.now;
      domain = j.domain.now;
      secret = j.secret.now;
      controller = j.controller.now;
      seed = j.seed.now;
      boot = j.boot;
      events = j.events;
      change = option_map (λ s. s.now) j.change;
      seal = j.seal;
    } };

    ghost invariant = { λ j. IsMemberForm (record {
      listen = j.listen.now;
      computer = j.computer.now;
      domain = j.domain.now;
      secret = j.secret.now;
      controller = j.controller.now;
      seed = j.seed.now;
      boot = j.boot;
      events = j.events;
      change = option_map (λ s. s.now) j.change;
      seal = j.seal;
    }) };
}

impl<'a> MemberWords<'a> {
    /// The address to listen at.
    pub fn listen(&self) -> &'a str
        ensures value { result.now ≡ self.now.listen }
        ensures form { IsAddress result.now }
    {
        self.listen
    }

    /// The computer's name.
    pub fn computer(&self) -> &'a str
        ensures value { result.now ≡ self.now.computer }
        ensures form { IsName result.now }
    {
        self.computer
    }

    /// The domain's name.
    pub fn domain(&self) -> &'a str
        ensures value { result.now ≡ self.now.domain }
        ensures form { IsName result.now }
    {
        self.domain
    }

    /// The controller's address.
    pub fn controller(&self) -> &'a str
        ensures value { result.now ≡ self.now.controller }
        ensures form { IsAddress result.now }
    {
        self.controller
    }

    /// The number of the boot.
    pub fn boot(&self) -> u32
        ensures { result ≡ self.now.boot }
    {
        self.boot
    }

    /// How many events are taken.
    pub fn events(&self) -> u32
        ensures { result ≡ self.now.events }
    {
        self.events
    }

    /// The name of the file of the secret to change to, where one is named.
    pub(crate) fn change_file(&self) -> Option<&'a str>
        ensures { option_map (λ s. s.now) result ≡ self.now.change }
    {
        self.change
    }

    /// Whether the machine's channel is sealed.
    pub fn seals(&self) -> bool
        ensures { result ≡ self.now.seal }
    {
        self.seal
    }

    /// The name of the file of the secrets.
    pub fn secret_file(&self) -> &'a str
        ensures { result.now ≡ self.now.secret }
    {
        self.secret
    }

    /// The name of the seed's file.
    pub(crate) fn seed_file(&self) -> &'a str
        ensures { result.now ≡ self.now.seed }
    {
        self.seed
    }
}

/// The job of `nt_member serve`.
#[tactic(auto, using(crate::proofs::Commands::member_is_simple), unfolding(crate::specs::Jobs::member_job))]
pub(crate) fn member_words<'a>(
    alloc: Global,
    words: &'a [String],
) -> Result<MemberWords<'a>, WordsRefused>
    requires { is_led_by (codes "serve") (map string_bytes words.now) ≡ true }
    ensures { UpToMemory WordsRefused.Memory result
        (member_job (map string_bytes words.now)) }
{
    let options = member_options();
    let matches = read_words(alloc, "serve", &options, words)?;
    Ok(MemberWords {
        listen: text(&matches, "listen"),
        computer: text(&matches, "computer"),
        domain: text(&matches, "domain"),
        secret: text(&matches, "secret"),
        controller: text(&matches, "controller"),
        seed: text(&matches, "seed"),
        boot: number(&matches, "boot", 0),
        events: number(&matches, "events", 4294967295),
        change: value(&matches, "change"),
        seal: is_on(value(&matches, "seal")),
    })
}

/// Whether a word switches something on; it doesn't where there is none.
fn is_on(word: Option<&str>) -> bool
    ensures { result ≡ is_on (option_map (λ s. s.now) word.entry) }
{
    match word {
        Some(word) => word == "on",
        None => false,
    }
}

/// The options of `nt_member serve`.
fn member_options() -> [OptionForm<'static>; 10]
    ensures { result ≡ member_form.choices }
{
    [
        OptionForm::new("listen", Kind::Address, true),
        OptionForm::new("computer", Kind::Name, true),
        OptionForm::new("domain", Kind::Name, true),
        OptionForm::new("secret", Kind::File, true),
        OptionForm::new("controller", Kind::Address, true),
        OptionForm::new("seed", Kind::File, true),
        OptionForm::new("boot", Kind::Number(4294967295), true),
        OptionForm::new("events", Kind::Number(4294967295), false),
        OptionForm::new("change", Kind::File, false),
        OptionForm::new("seal", Kind::Switch, false),
    ]
}
