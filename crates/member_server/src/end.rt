//! The member as an end of the loop that serves it.

use crate::lines::line_of;
use crate::member::Member;
use end_loop::End;
use outside::{Action, Actions, Chances, Event, StepRefused};
use std::alloc::Global;
use wire_base::{Blob, NoMemory};

impl End for Member {
    ghost use Rattle.member_server.specs.Machine.{is_stopped};
    ghost use Rattle.member_server.specs.Pending.{pending_in};
    ghost use Rattle.member_server.specs.SealStep.{any_member_machine};

    ghost machine = { any_member_machine };

    ghost is_stopped = { is_stopped };

    ghost pending = { pending_in };

    fn step<Q: Chances>(
        &mut self,
        alloc: Global,
        event: &Event,
        now: u64,
        chances: &mut Q,
    ) -> Result<Actions, StepRefused> {
        self.step(alloc, event, now, chances)
    }

    fn wants(&self) -> Option<u32> {
        self.wants()
    }

    fn is_over(&self) -> bool {
        false
    }

    fn line(&self, alloc: Global, action: &Action) -> Result<Blob, NoMemory> {
        line_of(alloc, action)
    }
}
