//! Units of remote procedure calls that a session signs or seals in their place (MS-RPCE 2.2.2.11, MS-NLMP 3.4.2 to
//! 3.4.4), as both ends of a link do.
#![tactic(auto)]

mod laws;
mod levels;
mod securing;

pub use laws::what_is_secured_is_opened;
pub use levels::{is_level, is_plain, is_sealed, is_signed};
pub use securing::{Secured, open_unit, secure_call, secure_unit, trailer};
