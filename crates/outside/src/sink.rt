//! The sink that lines are put into.

ghost use Rattle.std.specs.Prelude.{◌≡◌, ◌≤◌, ◌<◌, ℕ, List, Option, IfOk, OnErr, length, take};
ghost use Rattle.std.specs.Result.{result_unwrap_or};
ghost use Rattle.outside.specs.Causes.{Rose};
ghost use Rattle.outside.specs.Telling.{Appends};

use crate::port::Failed;

/// A place for bytes (this project's own choice). `faults` counts the failures and never falls. `taken` is, where it is
/// told, the bytes taken so far.
pub trait Sink {
    ghost faults: { Self → ℕ };

    ghost taken: { Self → Option (List ℕ) };

    /// Offers the bytes, and gives how many of their front were taken: at least 1 where there are any. After `Failed`
    /// none was.
    fn put(&mut self, bytes: &[u8]) -> Result<usize, Failed>
        ensures most { IfOk result (λ count. count ≤ length bytes.now) }
        ensures least { IfOk result (λ count. 0 < length bytes.now → 0 < count) }
        ensures cause { OnErr result (Rose (faults self.old) (faults self.new)) }
        ensures faults { faults self.old ≤ faults self.new }
        ensures told { Appends (taken self.old) (taken self.new)
            (take (result_unwrap_or result 0) bytes.now) };
}
