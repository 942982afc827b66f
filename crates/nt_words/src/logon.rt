//! The words of `nt_logon logon`.

ghost use Rattle.std.specs.Prelude.{◌≡◌, ◌≤◌, IsTrue, codes, map, option_map, true};
ghost use Rattle.std.specs.String.{string_bytes};
ghost use Rattle.wire_base.specs.Memory.{UpToMemory};
ghost use Rattle.wire_base.specs.Names.{IsName};
ghost use Rattle.unit_security.specs.Levels.{is_level};
ghost use Rattle.nt_words.specs.Forms.{IsAddress};
ghost use Rattle.nt_words.specs.Jobs.{is_led_by, level_in, auth_in, logon_form, logon_job};

use crate::options::{Kind, OptionForm, WordsRefused, number, text, value};
use crate::words::read_words;
use logon_client::AuthKind;
use std::alloc::Global;
use std::marker::Model;

/// What `nt_logon logon` is asked for.
#[derive(Debug, Drop)]
pub struct LogonWords<'a> {
    server: &'a str,
    domain: &'a str,
    user: &'a str,
    workstation: &'a str,
    hash: &'a str,
    level: u8,
    auth: AuthKind,
    echo: u32,
    seed: &'a str,
    boot: u32,
}

impl<'a> Model for LogonWords<'a> {
    ghost use Rattle.nt_words.specs.Forms.{IsLogonForm};
    ghost use Rattle.nt_words.specs.Jobs.{LogonJob};

    ghost Value = { LogonJob };

    ghost view = { λ j. record {
      server = j.server.now;
      domain = j.domain.now;
      user = j.user.now;
      workstation = j.workstation.now;
      hash = j.hash.now;
      level = j.level;
      auth = j.auth;
      echo = j.echo;
      seed = j.seed.now;
      boot = j.boot;
    } };

    ghost invariant = { λ j. IsLogonForm (record {
      server = j.server.now;
      domain = j.domain.now;
      user = j.user.now;
      workstation = j.workstation.now;
      hash = j.hash.now;
      level = j.level;
      auth = j.auth;
      echo = j.echo;
      seed = j.seed.now;
      boot = j.boot;
    }) };
}

impl<'a> LogonWords<'a> {
    /// The member server's address.
    pub fn server(&self) -> &'a str
        ensures value { result.now ≡ self.now.server }
        ensures form { IsAddress result.now }
    {
        self.server
    }

    /// The domain's name.
    pub fn domain(&self) -> &'a str
        ensures value { result.now ≡ self.now.domain }
        ensures form { IsName result.now }
    {
        self.domain
    }

    /// The user's name.
    pub fn user(&self) -> &'a str
        ensures value { result.now ≡ self.now.user }
        ensures form { IsName result.now }
    {
        self.user
    }

    /// The workstation's name.
    pub fn workstation(&self) -> &'a str
        ensures value { result.now ≡ self.now.workstation }
        ensures form { IsName result.now }
    {
        self.workstation
    }

    /// The level of authentication (MS-RPCE 2.2.1.1.8): 2, 5 or 6.
    pub fn level(&self) -> u8
        ensures value { result ≡ self.now.level }
        ensures form { IsTrue (is_level result) }
    {
        self.level
    }

    /// Which response is sent. Without extended session security the level is 2.
    pub fn auth(&self) -> AuthKind
        ensures value { result ≡ self.now.auth }
        ensures plain { result ≡ AuthKind.V1 → self.now.level ≡ 2 }
    {
        self.auth
    }

    /// How many bytes are echoed: 0 for none, at most 4,096.
    pub fn echo(&self) -> u32
        ensures value { result ≡ self.now.echo }
        ensures most { result ≤ 4096 }
    {
        self.echo
    }

    /// The number of the boot.
    pub fn boot(&self) -> u32
        ensures { result ≡ self.now.boot }
    {
        self.boot
    }

    /// The name of the hash's file.
    pub(crate) fn hash_file(&self) -> &'a str
        ensures { result.now ≡ self.now.hash }
    {
        self.hash
    }

    /// The name of the seed's file.
    pub(crate) fn seed_file(&self) -> &'a str
        ensures { result.now ≡ self.now.seed }
    {
        self.seed
    }
}

/// The job of `nt_logon logon`.
#[tactic(auto, using(crate::proofs::Commands::logon_is_simple), unfolding(crate::specs::Jobs::logon_job))]
pub(crate) fn logon_words<'a>(
    alloc: Global,
    words: &'a [String],
) -> Result<LogonWords<'a>, WordsRefused>
    requires { is_led_by (codes "logon") (map string_bytes words.now) ≡ true }
    ensures { UpToMemory WordsRefused.Memory result
        (logon_job (map string_bytes words.now)) }
{
    let options = logon_options();
    let matches = read_words(alloc, "logon", &options, words)?;
    Ok(LogonWords {
        server: text(&matches, "server"),
        domain: text(&matches, "domain"),
        user: text(&matches, "user"),
        workstation: text(&matches, "workstation"),
        hash: text(&matches, "hash"),
        level: level(value(&matches, "level")),
        auth: auth(value(&matches, "auth")),
        echo: number(&matches, "echo", 0),
        seed: text(&matches, "seed"),
        boot: number(&matches, "boot", 0),
    })
}

/// The options of `nt_logon logon`.
fn logon_options() -> [OptionForm<'static>; 10]
    ensures { result ≡ logon_form.choices }
{
    [
        OptionForm::new("server", Kind::Address, true),
        OptionForm::new("domain", Kind::Name, true),
        OptionForm::new("user", Kind::Name, true),
        OptionForm::new("workstation", Kind::Name, true),
        OptionForm::new("hash", Kind::File, true),
        OptionForm::new("level", Kind::Level, false),
        OptionForm::new("auth", Kind::Auth, false),
        OptionForm::new("echo", Kind::Number(4096), false),
        OptionForm::new("seed", Kind::File, true),
        OptionForm::new("boot", Kind::Number(4294967295), true),
    ]
}

/// The level of authentication that a word names.
fn level(word: Option<&str>) -> u8
    ensures { result ≡ level_in (option_map (λ s. s.now) word.entry) }
{
    match word {
        Some(word) => {
            if word == "connect" {
                2
            } else if word == "integrity" {
                5
            } else {
                6
            }
        }
        None => 6,
    }
}

/// The response that a word names.
fn auth(word: Option<&str>) -> AuthKind
    ensures { result ≡ auth_in (option_map (λ s. s.now) word.entry) }
{
    match word {
        Some(word) => {
            if word == "v1" {
                AuthKind::V1
            } else if word == "v1ess" {
                AuthKind::V1Ess
            } else {
                AuthKind::V2
            }
        }
        None => AuthKind::V2,
    }
}
