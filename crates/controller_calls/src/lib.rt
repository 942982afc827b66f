//! How a domain controller answers the calls of Netlogon (MS-NRPC 3.5.4.4, 3.5.4.5), and what it keeps of computers. It
//! knows no links: a call is whole, and its answer is an action that sends.
#![tactic(auto)]

mod authenticating;
mod calls;
mod challenging;
mod computers;
mod forwarded;
mod handing;
mod interactive;
mod judging;
pub mod laws;
mod line;
mod logon;
mod replying;
mod sealing;
mod seals;
mod setting;
mod standing;
mod state;
mod unsent;

pub use authenticating::{answer_authenticate, answer_secure};
pub use calls::{Asked, ControllerCall, JudgedCall};
pub use challenging::answer_challenge;
pub use forwarded::ForwardedCall;
pub use handing::{
    HandOn, answer_forwarded, answer_unasked, forwarded_stub, told_unasked, unasked_stub,
};
pub use judging::{judge_call, refuse_unowned};
pub use line::Line;
pub use replying::{fault_bytes, tell};
pub use sealing::seal_reply;
pub use seals::{
    ChannelSeals, KeptSeal, LinkSeal, ReplySeal, belongs, is_on, link_bound, no_seals, open_unit,
    stands,
};
pub use state::{ChallengePair, Computers, Work};
pub use unsent::{call_unsent, owned_unsent};
