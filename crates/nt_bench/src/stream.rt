//! A running RC4 stream.

ghost use Rattle.std.specs.Prelude.{◌≡◌, ◌+◌, ◌*◌, ◌^◌, ◌<◌};

use crate::bench::{KEY, Outcome, end_of, ramp};
use rc4_stream::Rc4;
use std::marker::Model;

/// The number of bytes of a piece.
pub const PIECE: usize = 16_384;

/// RC4 under the fixed key, how many pieces of its stream have been used, and the bytes that it is combined with.
#[derive(Drop)]
pub struct RunningStream {
    cipher: Rc4,
    pieces: u32,
    bytes: [u8; PIECE],
}

impl Model for RunningStream {
    ghost use Rattle.std.specs.Prelude.{◌≡◌, ◌*◌, ℕ};

    ghost Value = { ℕ };

    ghost view = { λ s. s.pieces };

    ghost invariant = { λ s. s.cipher.used ≡ 16384 * s.pieces };
}

impl RunningStream {
    /// Nothing is used.
    pub fn new() -> RunningStream {
        RunningStream {
            cipher: Rc4::new(&KEY),
            pieces: 0,
            bytes: ramp(),
        }
    }

    /// Combines the bytes with `turns` pieces of the stream, one after the other. After 2^32 - 1 pieces the stream
    /// begins anew.
    pub fn pieces(&mut self, turns: u32) -> Outcome {
        for _ in 0..turns {
            self.make_room();
            self.combine();
        }
        end_of(&self.bytes)
    }

    /// Begins anew where no further piece can be counted.
    fn make_room(&mut self)
        ensures { self.new + 1 < 2 ^ 32 }
    {
        if self.pieces == u32::MAX {
            self.cipher = Rc4::new(&KEY);
            self.pieces = 0;
        }
    }

    /// Combines the bytes with the next piece.
    fn combine(&mut self)
        requires { self.old + 1 < 2 ^ 32 }
    {
        self.cipher.apply(&mut self.bytes);
        self.pieces += 1;
    }
}
