//! Signing and sealing of the units of a Netlogon secure channel, with HMAC-MD5 and RC4 (MS-NRPC 3.3.4.2).
//!
//! One value stands at each end of a channel, over all its links. Its units in one direction are sealed in the order in
//! which the other end opens them. No call takes memory.
#![tactic(auto)]

mod channel;
mod keys;
mod laws;
mod refusal;
mod signature;

pub use channel::NlSeal;
pub use laws::{
    a_channel_carries_units_in_order, what_is_sealed_opens, what_is_sent_is_taken,
    what_is_taken_was_sealed,
};
pub use refusal::NlRefused;
pub use signature::SIGNATURE_LENGTH;
