//! Units of connection-oriented RPC: their bytes, streams of them, and the fragments of a call.
#![tactic(auto)]

mod coming;
mod fragments;
mod incoming;
mod inflow;
mod joiner;
mod kind;
mod laws;
mod numbers;
mod reading;
mod refused;
mod sealing;
mod stream;
mod unit;
mod viewing;
mod views;
mod writing;

pub use coming::Came;
pub use fragments::cut_call;
pub use incoming::Incoming;
pub use inflow::Inflow;
pub use joiner::{CALL_LIMIT, Joiner, stub_of};
pub use laws::{streams_have_one_reading, what_is_read_is_written, what_is_sent_is_heard};
pub use numbers::{
    ACCESS_DENIED, BAD_STUB_DATA, CONNECT_LEVEL, INTEGRITY_LEVEL, NDR, NO_CONTROLLER,
    NTLM_PROVIDER, OPERATION_OUT_OF_RANGE, PRIVACY_LEVEL, PROTOCOL_ERROR,
    numbers_are_of_the_standards,
};
pub use reading::{UNIT_LIMIT, read_unit};
pub use refused::{InflowRefused, JoinRefused, UnitRefused, UnitWriteRefused};
pub use sealing::{sealed_range, set_value, what_is_sealed_is_read};
pub use stream::read_stream;
pub use unit::{Body, Contexts, Results, Syntax, Syntaxes, Trailer, Unit, UnitList};
pub use viewing::{copy_unit, view_unit};
pub use views::{BodyView, TrailerView, UnitView};
pub use writing::write_unit;
