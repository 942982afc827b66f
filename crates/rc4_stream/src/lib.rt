//! RC4 as a stream: a value keeps a key and how many bytes of its key stream have been used.
#![tactic(auto)]

mod rc4;
mod state;

pub use rc4::Rc4;
