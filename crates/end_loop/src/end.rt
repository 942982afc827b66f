//! What the loop asks of an end.

ghost use Rattle.std.specs.Prelude.{◌≡◌, ◌≤◌, ◌+◌, ℕ, Bool, true, false, Err, IfOk, OnOk, IsTrue};
ghost use Rattle.outside.specs.Machine.{Machine, Takes, GivesUp, Spends};
ghost use Rattle.end_loop.specs.Acts.{is_made, most_made_by};

use outside::{Action, Actions, Chances, Event, StepRefused};
use std::alloc::Global;
use wire_base::{Blob, NoMemory};

/// An end, as the loop sees it (this project's own choice). `machine` is its machine over its own state, `is_stopped`
/// tells that a step was given up, and `pending` bounds how many more events its steps for closed and dialled links may
/// make.
pub trait End {
    ghost machine: { Machine Self };

    ghost is_stopped: { Self → Bool };

    ghost pending: { Self → ℕ };

    /// The step for the event at this moment, in units of 100 ns since 1601-01-01. `Stopped` comes only of an end that
    /// is stopped, and a step that is taken leaves none stopped.
    fn step<Q: Chances>(
        &mut self,
        alloc: Global,
        event: &Event,
        now: u64,
        chances: &mut Q,
    ) -> Result<Actions, StepRefused>
        ensures step { IfOk result (λ actions.
            Takes (machine.step self.old event.now now (Q.drawing chances.old).left) self.new
            (Q.drawing chances.old) (Q.drawing chances.new) actions) }
        ensures spent { result ≡ Err StepRefused.Spent →
            Spends (machine.step self.old event.now now (Q.drawing chances.old).left) self.new
            (Q.drawing chances.old) (Q.drawing chances.new) }
        ensures memory { result ≡ Err StepRefused.Memory →
            GivesUp (machine.step self.old event.now now (Q.drawing chances.old).left)
            (Q.drawing chances.old) (Q.drawing chances.new) }
        ensures stopped { result ≡ Err StepRefused.Stopped → IsTrue (is_stopped self.old) }
        ensures goes_on { OnOk result (is_stopped self.new ≡ false) }
        ensures settles { IfOk result (λ actions. IsTrue (is_made event.now) →
            most_made_by actions + pending self.new ≤ pending self.old) };

    /// The link that the end waits for.
    fn wants(&self) -> Option<u32>
        ensures { result ≡ machine.want self.now };

    /// Whether the end has its outcome, after which no event is asked for.
    fn is_over(&self) -> bool
        ensures { result ≡ machine.is_over self.now };

    /// The line that is put for an action of this end.
    fn line(&self, alloc: Global, action: &Action) -> Result<Blob, NoMemory>
        ensures { IfOk result (λ line. line ≡ machine.line action.now) };
}
