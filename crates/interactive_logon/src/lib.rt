//! The interactive logon on a workstation, and its logoff: NetrLogonSamLogon and NetrLogonSamLogoff at level 1 (MS-NRPC
//! 3.5.4.5.3, 3.5.4.5.4), and the sessions that a controller keeps of them.
#![tactic(auto)]

mod calls;
mod reading;
mod sessions;
mod writing;

pub use calls::{InteractiveCall, InteractiveInfo};
pub use reading::{read_interactive, what_is_interactive_is_no_network_logon};
pub use sessions::{AddRefused, SESSION_LIMIT, Session, Sessions, what_is_added_is_removed};
pub use writing::{what_is_written_is_read, write_interactive};
