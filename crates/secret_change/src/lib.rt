//! The change of a machine's secret at its controller (MS-NRPC 3.5.4.4.6, NetrServerPasswordSet). It has the stubs of
//! the call and of its reply, the new secret as it travels, and the secrets that a machine keeps.
#![tactic(auto)]

mod agreement;
mod calls;
mod hiding;
mod reading;
mod refused;
mod secrets;
mod writing;

pub use agreement::the_kept_pair_has_the_controllers;
pub use calls::{SetCall, SetReply};
pub use hiding::{hide, hiding_is_undone, show};
pub use reading::{read_set, read_set_reply};
pub use refused::{Busy, NotSecrets, SetRefused};
pub use secrets::{Secrets, what_is_written_is_read};
pub use writing::{what_is_put_is_read, write_set, write_set_reply};
