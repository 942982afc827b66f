//! What holds of whole runs of a world: what a run leaves behind, what is claimed of it, and `drive`, whose clauses say
//! what is proved of each run.
#![tactic(auto)]

mod accepting;
mod claims;
mod driving;

pub use accepting::{
    answers_are_taken_in_turn, calls_are_judged_as_carried, calls_are_stamped,
    carried_calls_are_heard, draws_of_runs_differ, keys_are_found_as_made, marked_units_are_whole,
    messages_are_called, messages_are_made, messages_are_taken_as_sent, outcomes_are_read_back,
    replies_are_read_back, runs_are_heard, runs_are_proved, runs_begin, runs_stand_so,
    schedules_are_heard, schedules_send_bytes, schedules_stand_quiet, sequences_follow,
    taken_calls_pass, trusting_controllers_listen, what_is_heard_is_accepted,
};
pub use claims::{
    claims_hold_of_runs, happenings_leave_no_two_apart, hashes_follow_sets, kept_channels_are_last,
    kinds_decide_who_is_asked, links_reach_the_named, members_keep_what_they_hold,
    members_leave_nothing_out, members_open_in_order, members_step_in_order,
    members_try_their_secrets, openings_are_made, what_asks_nobody_is_judged_alone,
    what_is_not_handed_on_is_written_alike, what_is_not_handed_on_runs_alone,
    what_is_proved_alone_is_carried_over,
};
pub use driving::{drive, drive_from};
pub use world_moves::{
    ClientPlans, MemberPlans, Move, Moves, Plan, Report, StationPlans, Tables, World, WorldRefused,
    moves_from,
};
