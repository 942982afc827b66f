//! The client of a logon: it binds to a member server with NTLM, answers its CHALLENGE, asks who is logged on, and has
//! bytes echoed.
#![tactic(auto)]

mod answering;
mod client;
mod end;
mod hearing;
mod laws;
mod outcome;
mod plan;
mod securing;
mod serving;
mod state;

pub use client::Client;
pub use laws::{
    a_loss_comes_of_its_event, an_outcome_closes_the_link, clients_send_on_their_link,
    what_clients_send_is_bytes, what_is_answered_verifies,
};
pub use outcome::{ClientOutcome, NoAnswerCause, PeerFault, RefusedCause};
pub use plan::{AuthKind, ClientPlan};
