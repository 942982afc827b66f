//! Small runs, written down by hand, that meet the claims on runs, and others that differ from them in one thing and
//! don't; and runs that a world made itself, which are clear and in which a logon is accepted. Nothing stands on it.
#![tactic(auto)]

mod laws;

pub use laws::{
    a_change_leaves_none_apart, a_run_is_clear, a_stranger_parts_them, ann_can_succeed,
    ann_is_accepted, claims_tell_apart, grants_tell_apart, kinds_tell_apart,
    letting_in_tells_apart, members_tell_apart, near_misses_tell_apart, openings_tell_apart,
    own_challenges_tell_apart, replies_tell_apart, requests_tell_apart, sequences_tell_apart,
    sessions_tell_apart, success_tells_apart,
};
