//! The turn of a secure channel that is out, and the link that is dialled for it: the same for every end that asks on a
//! channel. What a piece on the link comes to is handed back as values, and the end does what follows.
#![tactic(auto)]

mod dials;
mod hearing;
mod laws;
mod sealed_turns;
mod state;
mod taken_verdict;
mod turning;
mod turns;

pub use dials::{bind_turn, lose_turn, next_turn};
pub use hearing::{Heard, hear};
pub use laws::{
    next_turns_are_known, sealed_replies_are_opened, turns_end_once, turns_step_their_channel,
    what_is_sent_in_turns_is_whole,
};
pub use sealed_turns::{SealedWork, next_sealed_dial, sealed_link_hears};
pub use state::{Dialling, TurnEnd, TurnEnded, TurnTalk, TurnWork, Turning};
pub use taken_verdict::TakenVerdict;
pub use turning::{link_answers, link_closes, link_hears, next_dial, no_dial};
pub use turns::serve_turn;
