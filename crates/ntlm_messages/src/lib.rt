//! The three messages of NTLM and the pairs inside them (MS-NLMP 2.2).
#![tactic(auto)]

mod authenticate;
mod challenge;
mod fields;
mod messages;
mod negotiate;
mod pairs;
mod places;
mod refused;
mod text;
mod written;

pub use authenticate::{read_authenticate, view_authenticate, write_authenticate};
pub use challenge::{read_challenge, view_challenge, write_challenge};
pub use messages::{
    Authenticate, AuthenticateView, Challenge, ChallengeView, Negotiate, NegotiateView,
};
pub use negotiate::{read_negotiate, view_negotiate, write_negotiate};
pub use pairs::{Pairs, PairsRefused, pair_value, read_pairs, timestamp, write_pairs};
pub use refused::{Field, MessageRefused, WriteRefused};
pub use text::{text_units, units_of_text};
pub use written::what_is_written_is_read;
