//! Numbers, lists, maps, names and text as they stand on the wire, for every crate above.
#![tactic(auto)]

mod authenticator;
mod blob;
mod decimal;
mod list;
mod maps;
mod memory;
mod names;
mod numbers;
mod printing;
mod sid;
mod units;

pub use authenticator::Authenticator;
pub use blob::Blob;
pub use decimal::are_digits;
pub use list::{Calls, Frames, Groups, List, Names, Numbers};
pub use maps::{find_number, put_named, put_number, take_named, take_number, what_is_put_is_found};
pub use memory::NoMemory;
pub use names::{
    NAME_LIMIT, Name, NameRefused, same_units, sameness_is_an_equivalence, upper_unit,
};
pub use numbers::{u16_at, u32_at, u64_at};
pub use printing::{printable_unit, put_printable};
pub use sid::{Sid, SidRefused};
pub use units::{Units, UnitsRefused, what_is_written_is_read};
