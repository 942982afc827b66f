//! The sink that is standard output.

ghost use Rattle.std.specs.Prelude.{◌≡◌, ◌≤◌, ◌<◌, IfOk, OnErr, is_err, length, if◌then◌else◌};
ghost use Rattle.outside.specs.Causes.{Rose, next_count};

use crate::port::Failed;
use crate::sink::Sink;
use std::marker::Model;

/// Standard output, or whatever the handle prints to, seen as its count of failures. It tells nothing of what was
/// taken.
#[derive(Drop)]
pub struct OutSink<'a, P: Print> {
    out: &'a P,
    faults: u64,
}

impl<'a, P: Print> Model for OutSink<'a, P> {
    ghost use Rattle.std.specs.Prelude.{ℕ};

    ghost Value = { ℕ };

    ghost view = { λ s. s.faults };
}

impl<'a, P: Print> OutSink<'a, P> {
    /// Nothing has failed yet.
    pub fn new(out: &'a P) -> Self
        ensures { result ≡ 0 }
    {
        OutSink { out, faults: 0 }
    }
}

impl<P: Print> Sink for OutSink<'_, P> {
    ghost use Rattle.std.specs.Prelude.{None};

    ghost faults = { λ s. s };

    ghost taken = { λ s. None };

    fn put(&mut self, bytes: &[u8]) -> Result<usize, Failed>
        ensures most { IfOk result (λ count. count ≤ length bytes.now) }
        ensures least { IfOk result (λ count. 0 < length bytes.now → 0 < count) }
        ensures cause { OnErr result (Rose self.old self.new) }
        ensures faults { self.old ≤ self.new }
        ensures counts { self.new ≡ (if is_err result then next_count self.old else self.old) }
    {
        match self.out.write_some(bytes) {
            Ok(count) if count > 0 || bytes.is_empty() => Ok(count),
            _ => {
                self.faults = self.faults.saturating_add(1);
                Err(Failed)
            }
        }
    }
}
