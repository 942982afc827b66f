//! What links have in common at every end: the stream of a link, its binding, what is sent on it, and the units of it
//! served in order.
#![tactic(auto)]

mod binding;
mod laws;
mod link;
mod links;
mod sending;
mod serving;
mod short_actions;

pub use binding::{Binding, bind, bind_ack, bind_nak, fragment_limit};
pub use laws::{
    contexts_are_answered, sends_are_whole, steps_are_bounded, units_are_served_in_order,
};
pub use link::Link;
pub use links::{LINK_LIMIT, Links, SaysHeld};
pub use sending::{
    call_bytes, call_frames, fault, join_frames, request, response, short_unit_bytes, unit_bytes,
};
pub use serving::{ServesUnits, serve_piece};
pub use short_actions::ShortActions;
