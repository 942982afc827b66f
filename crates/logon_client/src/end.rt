//! The client as the loop sees it.

ghost use Rattle.std.specs.Prelude.{◌≡◌, ◌≤◌, ◌+◌, IsTrue};
ghost use Rattle.logon_client.specs.Machine.{client_machine, pending_of};

use crate::client::Client;
use end_loop::End;
use outside::{Action, Actions, Chances, Event, StepRefused};
use std::alloc::Global;
use wire_base::{Blob, NoMemory};

impl End for Client {
    ghost use Rattle.std.specs.Prelude.{not};
    ghost use Rattle.logon_client.specs.Machine.{client_machine, is_running, pending_of};

    ghost machine = { client_machine };

    ghost is_stopped = { λ c. not (is_running c.running) };

    ghost pending = { pending_of };

    fn step<Q: Chances>(
        &mut self,
        alloc: Global,
        event: &Event,
        now: u64,
        chances: &mut Q,
    ) -> Result<Actions, StepRefused> {
        self.step(alloc, event, now, chances)
    }

    fn wants(&self) -> Option<u32> {
        self.wants()
    }

    fn is_over(&self) -> bool {
        self.outcome().is_some()
    }

    fn line(&self, alloc: Global, _action: &Action) -> Result<Blob, NoMemory> {
        Blob::copy(alloc, &[])
    }
}
