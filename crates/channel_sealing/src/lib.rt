//! Units of remote procedure calls that one end of a Netlogon secure channel seals in their place (MS-NRPC 3.3.4.2,
//! MS-RPCE 2.2.2.11): the trailers of binds, calls and replies, and all frames of a call, one after the other.
#![tactic(auto)]

mod frames;
pub mod laws;
mod names;
mod parts;
mod trailers;

pub use frames::{SEALED_ROOM, range_of, room_frames, seal_frames};
pub use names::bind_names;
pub use parts::{SealedPart, sealed_part};
pub use trailers::{
    NETLOGON_PROVIDER, OWN_CONTEXT, bind_value, sealed_ack, sealed_bind, sealed_limit,
    sealed_link_limit, trailer,
};
