//! The member server as a machine over plain values: it lets users in whose logons its controller grants, one shared
//! secure channel judging them all, and serves them the memo interface.
#![tactic(auto)]

mod binds;
mod change;
mod end;
mod held;
mod holding;
mod laws;
mod lines;
mod member;
mod memo;
mod messages;
mod outcomes;
mod plan;
mod requests;
mod seal_step;
mod state;
mod turns;
mod units;
mod work;

pub use change::ChangeRefused;
pub use held::HELD_LIMIT;
pub use laws::{
    a_challenge_serves_one_message, an_outcome_reaches_its_link, bytes_leave_other_links,
    channel_steps_are_known, in_is_told_of_a_granted_logon, made_events_end, plain_members_stay,
    sealing_members_stay, texts_are_of_secrets, texts_that_change_are_kept, turns_are_dialled,
    turns_are_shared, what_is_closed_closes_nothing, what_is_held_are_requests,
    what_is_kept_is_held, what_is_kept_waits, what_is_tried_opens, what_turns_send_is_whole,
};
pub use member::Member;
pub use plan::MemberPlan;
