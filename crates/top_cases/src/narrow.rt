//! A sink that takes little of each piece.

use outside::{Failed, Sink, VecSink};

/// A sink that takes at most three bytes of a piece.
#[derive(Drop)]
pub(crate) struct NarrowSink(pub VecSink);

impl Sink for NarrowSink {
    ghost use Rattle.std.specs.Prelude.{None};

    ghost faults = { λ s. s.0.faults };

    ghost taken = { λ s. None };

    fn put(&mut self, bytes: &[u8]) -> Result<usize, Failed> {
        self.0.put(&bytes[..bytes.len().min(3)])
    }
}
