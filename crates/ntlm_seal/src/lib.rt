//! Signing and sealing of the units of a session with NTLM's extended session security (MS-NLMP 3.4).
//!
//! A session has two directions, each with its keys, its key stream and its count of units. Units are signed or sealed
//! in the order in which the other side checks or opens them.
#![tactic(auto)]

mod direction;
mod keys;
mod refusal;
mod session;
mod side;

pub use refusal::SealRefused;
pub use session::{Session, what_is_sealed_opens, what_is_sent_is_taken};
pub use side::Side;
