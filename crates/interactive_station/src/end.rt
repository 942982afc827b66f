//! The station as the loop sees it.

ghost use Rattle.interactive_station.specs.Machine.{pending_of, station_machine};

use crate::lines::line_of;
use crate::station::Station;
use end_loop::End;
use outside::{Action, Actions, Chances, Event, StepRefused};
use std::alloc::Global;
use wire_base::{Blob, NoMemory};

impl End for Station {
    ghost use Rattle.std.specs.Prelude.{is_none};
    ghost use Rattle.interactive_station.specs.Machine.{pending_of, station_machine};

    ghost machine = { station_machine };

    ghost is_stopped = { λ s. is_none s.running };

    ghost pending = { pending_of };

    fn step<Q: Chances>(
        &mut self,
        alloc: Global,
        event: &Event,
        now: u64,
        chances: &mut Q,
    ) -> Result<Actions, StepRefused> {
        self.step(alloc, event, now, chances)
    }

    fn wants(&self) -> Option<u32> {
        self.wants()
    }

    fn is_over(&self) -> bool {
        self.outcome().is_some()
    }

    fn line(&self, alloc: Global, action: &Action) -> Result<Blob, NoMemory> {
        line_of(alloc, action)
    }
}
