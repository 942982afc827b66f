//! What a service starts from: its words and what its files hold.

ghost use Rattle.std.specs.Prelude.{◌≡◌, IfOk};
ghost use Rattle.nt_words.specs.Files.{shelf_of, ReadsFiles};
ghost use Rattle.nt_words.specs.Setups.{file_names, service_in, setup_due};

use crate::controller::ControllerWords;
use crate::files::{
    ControllerSetup, FilesRefused, MemberSetup, SecretSetup, StationSetup, read_controller_files,
    read_member_files, read_secret_files, read_station_files,
};
use crate::job::Service;
use crate::logon::LogonWords;
use crate::member::MemberWords;
use crate::station::StationWords;
use outside::Files;
use std::alloc::Global;

/// A service with what its files hold.
#[derive(Drop)]
pub enum Setup<'a> {
    /// `nt_controller serve`.
    Controller(ControllerWords<'a>, ControllerSetup),
    /// `nt_member serve`.
    Member(MemberWords<'a>, MemberSetup),
    /// `nt_logon logon`.
    Logon(LogonWords<'a>, SecretSetup),
    /// `nt_logon station`.
    Station(StationWords<'a>, StationSetup),
}

/// Reads the files of a service, in the order of its options.
pub fn set_up<'a, F: Files>(
    alloc: Global,
    files: &mut F,
    service: Service<'a>,
) -> Result<Setup<'a>, FilesRefused>
    ensures files { let shelf = shelf_of F.faults F.contents F.reads F.writes in
        ReadsFiles (file_names service.entry) (setup_due service.entry) result
        (shelf files.old) (shelf files.new) }
    // What is set up is that service, also where the files' contents aren't told.
    ensures words { IfOk result (λ setup. service_in setup ≡ service.entry) }
{
    match service {
        Service::Controller(words) => {
            let (table, seed) = (words.table_file(), words.seed_file());
            match read_controller_files(alloc, files, table, seed, words.secrets()) {
                Ok(setup) => Ok(Setup::Controller(words, setup)),
                Err(refused) => Err(refused),
            }
        }
        Service::Member(words) => {
            let (secret, seed) = (words.secret_file(), words.seed_file());
            match read_member_files(alloc, files, secret, seed, words.change_file()) {
                Ok(setup) => Ok(Setup::Member(words, setup)),
                Err(refused) => Err(refused),
            }
        }
        Service::Logon(words) => {
            match read_secret_files(alloc, files, 5, words.hash_file(), 9, words.seed_file()) {
                Ok(setup) => Ok(Setup::Logon(words, setup)),
                Err(refused) => Err(refused),
            }
        }
        Service::Station(words) => {
            let (secret, hash, seed) = (words.secret_file(), words.hash_file(), words.seed_file());
            match read_station_files(alloc, files, secret, hash, seed) {
                Ok(setup) => Ok(Setup::Station(words, setup)),
                Err(refused) => Err(refused),
            }
        }
    }
}
