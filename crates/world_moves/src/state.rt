//! What a world keeps beside its counters of moves.

use crate::bag::Bag;
use crate::counting::Counts;
use crate::ends::Ends;
use crate::links::{EndId, OpenLinks, WorldLinks};
use crate::maker::Maker;
use crate::plan::{ClientTasks, MemberPlans, StationTasks};
use wire_base::{Blob, List};

/// A dial that waits: who dialled, and the address.
#[derive(Debug, Drop)]
pub struct WaitingDial {
    pub end: EndId,
    pub peer: Blob,
}

/// The state of a world: the ends, the plans from which members, clients and stations are made, whether controllers are
/// made such that they hand logons on, and such that they can seal, all links that were made, those that are open at a
/// side, the bag, the dials that wait, the moment in units of 100 ns since 1601-01-01, the maker of challenges, and the
/// counts.
#[derive(Drop)]
pub struct State {
    pub ends: Ends,
    pub member_plans: MemberPlans,
    pub client_plans: ClientTasks,
    pub station_plans: StationTasks,
    pub hands_on: bool,
    pub seals: bool,
    pub links: WorldLinks,
    pub open_links: OpenLinks,
    pub bag: Bag,
    pub dials: List<WaitingDial>,
    pub moment: u64,
    pub chances: Maker,
    pub counts: Counts,
}
