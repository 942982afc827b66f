//! The units of a station's link.

use crate::hearing::{break_off, hear_unit};
use crate::state::{StationTalk, StationWork};
use end_links::ServesUnits;
use outside::{Chances, CloseCause, StepRefused};
use rpc_units::UnitRefused;
use std::alloc::Global;
use wire_base::NoMemory;

impl ServesUnits<StationTalk> for StationWork {
    ghost use Rattle.interactive_station.specs.Machine.{station_server};
    ghost use Rattle.interactive_station.specs.Rests.{station_few, station_leaves};

    ghost server = { station_server };

    ghost extra = { λ talk. 0 };

    #[tactic(auto, using(crate::proofs::DrawLaws::drawing))]
    fn serve<Q: Chances>(
        self,
        alloc: Global,
        bytes: &mut [u8],
        talk: StationTalk,
        _chances: &mut Q,
    ) -> Result<(StationWork, Option<StationTalk>), StepRefused> {
        match hear_unit(alloc, bytes, talk, self) {
            Ok(served) => Ok(served),
            Err(NoMemory) => Err(StepRefused::Memory),
        }
    }

    #[tactic(auto, using(crate::proofs::DrawLaws::drawing))]
    fn refuse<Q: Chances>(
        self,
        _alloc: Global,
        _why: UnitRefused,
        talk: StationTalk,
        _chances: &mut Q,
    ) -> Result<StationWork, StepRefused> {
        match break_off(CloseCause::BadUnit, talk.link, self) {
            Ok(work) => Ok(work),
            Err(NoMemory) => Err(StepRefused::Memory),
        }
    }

    ghost leaves = { station_leaves };

    ghost few = { station_few };
}
