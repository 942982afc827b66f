//! What an end meets outside itself: a port, files, a sink, a clock and a maker of challenges, as traits whose
//! contracts say what each call may answer, scripted implementations in memory, and the maker of challenges that
//! counts.
//!
//! A port, files and a sink count their failures, and answer `Failed` only where a count rose. What an implementation
//! tells of its content is optional: the real ones tell nothing.
#![tactic(auto)]

mod action;
mod chances;
mod clock;
mod counter_chances;
mod disk_files;
mod event;
mod files;
mod laws;
mod list_chances;
mod list_clock;
mod lists;
mod map_files;
mod out_sink;
mod port;
mod script;
mod script_port;
mod sink;
mod socket_link;
mod socket_port;
mod socket_watch;
mod sockets;
mod sure_port;
mod sure_sink;
mod system_clock;
mod vec_sink;

pub use action::{Action, Actions, CloseCause, DropCause, Judged, Outcome, StepRefused};
pub use chances::{Chances, Spent};
pub use clock::Clock;
pub use counter_chances::CounterChances;
pub use disk_files::DiskFiles;
pub use event::{Event, Events, Happening};
pub use files::{FileRefused, Files, MOST_FILE_BYTES};
pub use laws::{
    draws_add_up, faults_add_up, faults_follow_the_story, fronts_are_parts, refusals_pass,
    stories_add_up,
};
pub use list_chances::ListChances;
pub use list_clock::ListClock;
pub use lists::{Draws, Moments, Sends, Texts};
pub use map_files::MapFiles;
pub use out_sink::OutSink;
pub use port::{Failed, MOST_EVENT_BYTES, Port, PortRefused};
pub use script_port::{FIRST_DIALLED, ScriptPort};
pub use sink::Sink;
pub use socket_port::SocketPort;
pub use sure_port::SurePort;
pub use sure_sink::SureSink;
pub use system_clock::SystemClock;
pub use vec_sink::VecSink;
