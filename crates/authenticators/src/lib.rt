//! The sequence of authenticators on a secure channel (MS-NRPC 3.1.4.5): each proves its sender by the session key and
//! a seed that moves with it. Besides, a secure channel as each of its ends keeps it, when two channels are one, and
//! the timestamp of a moment.
//!
//! No call takes memory.
#![tactic(auto)]

pub mod laws;
mod refusal;
mod secure_channel;
mod seed;
mod sequence;
mod timestamp;

pub use refusal::NotNext;
pub use secure_channel::SecureChannel;
pub use sequence::Sequence;
pub use timestamp::timestamp_at;
