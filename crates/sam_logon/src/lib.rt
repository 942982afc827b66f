//! How a domain controller judges a logon, from the network or interactive: the rules in their order, and what is
//! granted.
#![tactic(auto)]

mod granting;
mod judging;
mod laws;
mod rules;
mod showing;

pub use granting::at_level;
pub use judging::{Weighed, judge_interactive, judge_logon, weigh_interactive, weigh_logon};
pub use laws::what_is_granted_joins;
