//! A domain controller as a machine over plain values (MS-NRPC 3.5): events of links come in, and what it sends, closes
//! and tells goes out. It answers the calls that set up a secure channel, and what is asked on one: logons, logoffs and
//! changes of machine accounts' secrets.
#![tactic(auto)]

mod answering;
mod controller;
mod forwarding;
mod hearing;
pub mod laws;
mod lines;
mod links;
mod seal_answering;
mod seal_forwarding;
mod seal_hearing;
mod seal_links;
mod seal_serving;
mod seal_step;
mod seal_turning;
mod sealed;
mod serving;
mod state;
mod trusting;
mod turning;
mod verdicts;

pub use controller::Controller;
