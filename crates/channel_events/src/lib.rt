//! One secure channel as a protocol (MS-NRPC 3.1.4): what happens to it, event by event, and what holds of it then.
//! It names no machine, no end and no world.
#![tactic(auto)]

mod laws;

pub use laws::{
    accepted_channels_stay_in_order, calls_stay_apart, requesters_keep_accepted_in_order,
    requesters_keep_calls_apart, secrets_stay_together,
};
