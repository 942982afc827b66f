//! What ends make of the units of a whole logon, one after the other: a turn of a member with its
//! controller, whichever call it makes; the units between client and member; and the turns of a
//! controller that hands the logon on to the controller of a trusted domain.
#![tactic(auto)]

mod laws;

pub use laws::{
    answers_are_asked, calls_are_answered, calls_can_go, clients_and_members_meet, clients_step,
    computers_are_known, controllers_set, controllers_step, handed_calls_go, handed_turns_step,
    links_step, logons_are_asked, logons_are_granted, logons_are_handed_on, logons_are_short,
    logons_end, memo_calls_go, secrets_are_set, set_turns_step, set_units_go, trusts_are_known,
    trusts_stay_beside, turns_go_through, turns_step,
};
