//! The end of Netlogon's secure channel that asks (MS-NRPC 3.1.4 and 3.5.4): one channel that all logons of the end
//! share, each in a turn of its own. It sends and hears units of RPC as values, and knows no links.
#![tactic(auto)]

mod answers;
mod caller;
mod channel;
mod hearing;
mod judging;
mod kept;
pub mod laws;
mod plain;
mod sealing;
mod short_frames;
mod starting;
mod state;
mod turn;

pub use answers::{AskRefused, TakeRefused, Taken};
pub use channel::Channel;
pub use kept::WAITING_LIMIT;
pub use plain::PlainChannel;
pub use short_frames::ShortFrames;
pub use turn::Turn;
