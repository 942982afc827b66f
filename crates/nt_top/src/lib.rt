//! What the programs do: the words of a command line lead to an exit status and to bytes put, whatever the outside is.
#![tactic(auto)]

mod answer;
mod check;
mod controller_serving;
mod drill;
mod exit;
mod launch;
mod laws;
mod logon;
mod member_serving;
mod serve;
mod service;
mod show;
mod station;
mod texts;
mod top;
mod words;

pub use drill::drill_lines;
pub use exit::Exit;
pub use launch::{run_and_report, start};
pub use laws::{
    a_member_begins_one_change, runs_that_nobody_seals_stay_plain,
    services_that_nobody_seals_stay_plain, what_is_told_decides_how_a_service_ends,
    what_is_told_decides_how_a_station_ends, what_is_told_decides_the_exit,
    what_nobody_seals_stays_plain,
};
pub use nt_words::Role;
pub use texts::{exit_line, exit_text, report};
pub use top::run;
