//! What no line of a case program can show: clauses as a caller uses them, what standard output and standard error
//! take, and the status with which a process ends. Functions whose clauses follow from those of what they call, and
//! tests, without tables of values.
#![tactic(auto)]

#[cfg(test)]
mod disk;
#[cfg(test)]
mod limits;
mod pieces;
#[cfg(test)]
mod process;
#[cfg(test)]
mod sockets;
#[cfg(test)]
mod standard_output;
#[cfg(test)]
mod writes;

pub use pieces::{hmac_of_three, hmac_of_two, md4_of_two};
