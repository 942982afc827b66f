//! The stubs of the memo interface, by which a member tells who is logged on and sends bytes back (this project's own
//! interface).
#![tactic(auto)]

mod interface;
mod reading;
mod refused;
mod writing;

pub use interface::{MEMO, what_constants_are};
pub use reading::{read_echo_reply, read_echo_request, read_who_reply};
pub use refused::MemoRefused;
pub use writing::{what_is_written_is_read, write_echo_reply, write_echo_request, write_who_reply};
