//! What a controller keeps.

use controller_calls::Computers;
use end_links::{Binding, Links, SaysHeld};
use rpc_units::Joiner;

/// What is said on a link: the open fragments of a call, and what a bind agreed on, where one was taken.
#[derive(Drop)]
pub struct Talk {
    pub joiner: Joiner,
    pub binding: Option<Binding>,
}

impl SaysHeld for Talk {
    ghost use Rattle.end_links.specs.Links.{open_limit};
    ghost use Rattle.rpc_units.specs.Joining.{open_len};

    ghost bytes_held = { λ talk. open_len talk.joiner };

    ghost most_held = { open_limit };

    /// The stub bytes of the open call.
    fn held(&self) -> usize {
        self.joiner.len()
    }
}

/// What a controller that hasn't stopped keeps beside its accounts and its name.
#[derive(Drop)]
pub struct Running {
    pub computers: Computers,
    pub links: Links<Talk>,
}
