//! The world: controllers, members, clients and stations beside each other, with all links between them, driven by a
//! list of moves. A move delivers, loses or repeats what was sent, restarts an end, or lets a stranger in; nothing else
//! happens.
#![tactic(auto)]

mod acting;
mod bag;
mod choosing;
mod counting;
mod ends;
mod forms;
mod laws;
mod links;
mod maker;
mod making;
mod moves;
mod moving;
mod plan;
mod state;
mod world;

pub use counting::Report;
pub use laws::{
    a_plain_world_hears_plainly, a_run_ends_in_its_last_state, who_asks_nobody_hears_alone,
};
pub use moves::{Move, Moves, moves_from, moves_have_forms};
pub use plan::{ClientPlans, MemberPlans, Plan, StationPlans, Tables};
pub use world::{World, WorldRefused};
