//! The right to move a channel.

use std::marker::Model;

/// The right to move the sequence of a channel, of which one is out at a time (this project's own choice). It can't be
/// copied, and carries nothing: what it is for stands in the channel. One that is let go leaves its channel with a turn
/// out for good.
#[derive(Debug, Drop)]
pub struct Turn {
    _out: (),
}

impl Model for Turn {
    ghost Value = { Unit {0} };

    ghost view = { λ t. tt };
}

impl Turn {
    /// The right, which the channel alone gives.
    pub(crate) fn new() -> Turn {
        Turn { _out: () }
    }
}
