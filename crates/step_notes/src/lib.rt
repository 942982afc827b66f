//! What is written down of one step of one end: which unit was made for which channel, which calls were judged and
//! how, which messages were taken and made. It is read off the ends' own machines, and names no world.
#![tactic(auto)]

mod laws;

pub use laws::{
    calls_carry_their_logon, calls_change_what_is_kept, channels_are_named_alike,
    clients_write_down_what_they_send, controllers_hear_whole, grants_carry_their_key,
    members_take_whole, notes_are_alike, passed_replies_are_read, replies_are_sent_as_judged,
    replies_of_trusting_are_sent, requests_come_first, stations_are_noted,
    steps_are_noted_by_effect, units_have_their_marks,
};
