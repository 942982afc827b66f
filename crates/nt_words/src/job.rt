//! What the words of a command line ask for.

ghost use Rattle.std.specs.Prelude.{◌≡◌, IfSome, codes, map, true};
ghost use Rattle.std.specs.String.{string_bytes};
ghost use Rattle.wire_base.specs.Memory.{UpToMemory};
ghost use Rattle.nt_words.specs.Roles.{check, command_from, job_at_once, job_of, service_from, show};
ghost use Rattle.nt_words.specs.Jobs.{controller_job, drill_job, is_led_by, logon_job, member_job, station_job};
ghost use Rattle.nt_words.specs.declared.job.Command.TheVariants as commands;
ghost use Rattle.nt_words.specs.declared.job.Service.TheVariants as services;

use crate::controller::{ControllerWords, controller_words};
use crate::drill::{DrillWords, drill_words};
use crate::logon::{LogonWords, logon_words};
use crate::member::{MemberWords, member_words};
use crate::options::WordsRefused;
use crate::station::{StationWords, station_words};
use std::alloc::Global;
use std::marker::Model;

/// Which program runs.
#[derive(Clone, Copy, Debug, PartialEq, Eq)]
pub enum Role {
    /// The domain controller.
    Controller,
    /// The member server.
    Member,
    /// The logon client.
    Logon,
}

/// What `nt_member check` is asked for.
#[derive(Debug, Drop)]
pub struct CheckWords<'a> {
    hash: &'a str,
    challenge: &'a str,
    message: &'a str,
}

impl<'a> Model for CheckWords<'a> {
    ghost use Rattle.nt_words.specs.Jobs.{CheckJob};

    ghost Value = { CheckJob };

    ghost view = { λ j. record { hash = j.hash.now; challenge = j.challenge.now; message = j.message.now } };
}

impl<'a> CheckWords<'a> {
    /// The word that is to be a hash.
    pub fn hash(&self) -> &'a str
        ensures { result.now ≡ self.now.hash }
    {
        self.hash
    }

    /// The word that is to be a challenge.
    pub fn challenge(&self) -> &'a str
        ensures { result.now ≡ self.now.challenge }
    {
        self.challenge
    }

    /// The word that is to be a message.
    pub fn message(&self) -> &'a str
        ensures { result.now ≡ self.now.message }
    {
        self.message
    }
}

/// What `nt_logon show` is asked for.
#[derive(Debug, Drop)]
pub struct ShowWords<'a> {
    message: &'a str,
}

impl<'a> Model for ShowWords<'a> {
    ghost use Rattle.nt_words.specs.Jobs.{ShowJob};

    ghost Value = { ShowJob };

    ghost view = { λ j. record { message = j.message.now } };
}

impl<'a> ShowWords<'a> {
    /// The word that is to be a message.
    pub fn message(&self) -> &'a str
        ensures { result.now ≡ self.now.message }
    {
        self.message
    }
}

/// A service: it uses the port, and reads files first.
#[derive(Debug, Drop)]
pub enum Service<'a> {
    /// `nt_controller serve`.
    Controller(ControllerWords<'a>),
    /// `nt_member serve`.
    Member(MemberWords<'a>),
    /// `nt_logon logon`.
    Logon(LogonWords<'a>),
    /// `nt_logon station`.
    Station(StationWords<'a>),
}

/// A command that its words alone tell.
#[derive(Debug, Drop)]
pub enum Command<'a> {
    /// `nt_member check`.
    Check(CheckWords<'a>),
    /// `nt_logon show`.
    Show(ShowWords<'a>),
    /// `nt_logon drill`.
    Drill(DrillWords),
}

/// A job.
#[derive(Debug, Drop)]
pub enum Job<'a> {
    /// An end is served, or a logon made.
    Service(Service<'a>),
    /// An answer is put.
    Command(Command<'a>),
}

/// The job that the words ask the program of this role for. The first word is read once, here.
pub fn job_of<'a>(alloc: Global, role: Role, words: &'a [String]) -> Result<Job<'a>, WordsRefused>
    ensures job { UpToMemory WordsRefused.Memory result
        (job_of role (map string_bytes words.now)) }
    // What is seen without memory comes whether there is memory or not.
    ensures at_once { IfSome (job_at_once role (map string_bytes words.now))
        (λ due. result ≡ due) }
{
    let [command, ..] = words else {
        return Err(WordsRefused::BadWords(0));
    };
    match (role, command.as_str()) {
        (Role::Controller, "serve") => controller_job(alloc, words),
        (Role::Member, "serve") => member_job(alloc, words),
        (Role::Member, "check") => check_job(words),
        (Role::Logon, "logon") => logon_job(alloc, words),
        (Role::Logon, "show") => show_job(words),
        (Role::Logon, "drill") => drill_job(alloc, words),
        (Role::Logon, "station") => station_job(alloc, words),
        _ => Err(WordsRefused::BadWords(0)),
    }
}

/// The job of a controller.
fn controller_job<'a>(alloc: Global, words: &'a [String]) -> Result<Job<'a>, WordsRefused>
    requires { is_led_by (codes "serve") (map string_bytes words.now) ≡ true }
    ensures { UpToMemory WordsRefused.Memory result
        (service_from services.Controller (controller_job (map string_bytes words.now))) }
{
    match controller_words(alloc, words) {
        Ok(job) => Ok(Job::Service(Service::Controller(job))),
        Err(refused) => Err(refused),
    }
}

/// The job of a member server that serves.
fn member_job<'a>(alloc: Global, words: &'a [String]) -> Result<Job<'a>, WordsRefused>
    requires { is_led_by (codes "serve") (map string_bytes words.now) ≡ true }
    ensures { UpToMemory WordsRefused.Memory result
        (service_from services.Member (member_job (map string_bytes words.now))) }
{
    match member_words(alloc, words) {
        Ok(job) => Ok(Job::Service(Service::Member(job))),
        Err(refused) => Err(refused),
    }
}

/// The job of a logon.
fn logon_job<'a>(alloc: Global, words: &'a [String]) -> Result<Job<'a>, WordsRefused>
    requires { is_led_by (codes "logon") (map string_bytes words.now) ≡ true }
    ensures { UpToMemory WordsRefused.Memory result
        (service_from services.Logon (logon_job (map string_bytes words.now))) }
{
    match logon_words(alloc, words) {
        Ok(job) => Ok(Job::Service(Service::Logon(job))),
        Err(refused) => Err(refused),
    }
}

/// The job of a workstation that logs a user on and off.
fn station_job<'a>(alloc: Global, words: &'a [String]) -> Result<Job<'a>, WordsRefused>
    requires { is_led_by (codes "station") (map string_bytes words.now) ≡ true }
    ensures { UpToMemory WordsRefused.Memory result
        (service_from services.Station (station_job (map string_bytes words.now))) }
{
    match station_words(alloc, words) {
        Ok(job) => Ok(Job::Service(Service::Station(job))),
        Err(refused) => Err(refused),
    }
}

/// The job of a drill.
fn drill_job<'a>(alloc: Global, words: &'a [String]) -> Result<Job<'a>, WordsRefused>
    requires { is_led_by (codes "drill") (map string_bytes words.now) ≡ true }
    ensures { UpToMemory WordsRefused.Memory result
        (command_from commands.Drill (drill_job (map string_bytes words.now))) }
{
    match drill_words(alloc, words) {
        Ok(job) => Ok(Job::Command(Command::Drill(job))),
        Err(refused) => Err(refused),
    }
}

/// The job of a check.
fn check_job<'a>(words: &'a [String]) -> Result<Job<'a>, WordsRefused>
    ensures { result ≡ check (map string_bytes words.now) }
{
    match words {
        [_, hash, challenge, message] => Ok(Job::Command(Command::Check(CheckWords {
            hash: hash.as_str(),
            challenge: challenge.as_str(),
            message: message.as_str(),
        }))),
        _ => Err(WordsRefused::BadWords(0)),
    }
}

/// The job of a show.
fn show_job<'a>(words: &'a [String]) -> Result<Job<'a>, WordsRefused>
    ensures { result ≡ show (map string_bytes words.now) }
{
    match words {
        [_, message] => Ok(Job::Command(Command::Show(ShowWords {
            message: message.as_str(),
        }))),
        _ => Err(WordsRefused::BadWords(0)),
    }
}
