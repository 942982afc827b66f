//! What the words of a command line ask for, and what the files that they name hold: each is judged in the order of the
//! command's options.
//!
//! A command with options is a name and a list of options. Its words are read by `clap`, and its values are judged by
//! that list.
#![tactic(auto)]

mod controller;
mod drill;
mod files;
mod job;
mod laws;
mod logon;
mod member;
mod options;
mod reading;
mod setup;
mod station;
mod words;

pub use controller::ControllerWords;
pub use drill::DrillWords;
pub use files::{ControllerSetup, FilesRefused, MemberSetup, SecretSetup, StationSetup};
pub use job::{CheckWords, Command, Job, Role, Service, ShowWords, job_of};
pub use laws::{files_are_of_their_options, number_is_of_the_first_misfit, what_files_hold};
pub use logon::LogonWords;
pub use member::MemberWords;
pub use options::{Kind, OptionForm, WordsRefused};
pub use setup::{Setup, set_up};
pub use station::StationWords;
