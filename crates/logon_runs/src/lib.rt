//! Runs of a world in which one logon goes on at a time: what is seen of its client, its member and
//! its controller, move by move, and a whole logon that is granted, from its start to rest.
#![tactic(auto)]

mod laws;

pub use laws::{
    an_example_logs_on, any_logons_start, any_phases_go_on, controllers_answer, ends_stay,
    failings_are_seen, failings_step, first_logons_are_seen, first_logons_run,
    first_turns_are_seen, first_turns_run, first_worlds_run, grants_are_told, grants_go_on,
    grants_rest, grants_tell, hop_turns_are_seen, keys_may_differ, logons_are_seen,
    logons_are_turned_away, logons_come_to_rest, logons_rest, meetings_are_seen, others_are_left,
    phases_go_on, rests_stay, scenes_go_on, scenes_turn, starts_are_seen, traffic_goes_on,
    turns_are_seen, turns_have_links, turns_run, what_waits_comes,
};
