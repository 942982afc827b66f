//! What a serving program does with its outside, once for every end: events are given one at a time, the end steps
//! each, its actions are performed in order, and what they make (a dial's answer, a link whose send failed) is stepped
//! before the next event is asked for.
//!
//! `serve` is the loop. `begin_with` performs first actions of the end's own before it, and `serve_at` starts the
//! challenges and listens before both. Their contracts tie what the port, the clock, the maker of challenges and the
//! sink tell to a run of the end's machine, step by step.
#![tactic(auto)]

mod act;
mod begun;
mod end;
mod halt;
mod laws;
mod put;
mod serving;
mod step;
mod top;

pub use begun::begin_with;
pub use end::End;
pub use halt::Halt;
pub use laws::{
    asks_for_its_events, counts_its_link_faults, dials_and_closes_as_the_machine_asks,
    sends_what_the_machine_sends, story_determines_the_run, writes_what_the_end_keeps,
};
pub use put::put_all;
pub use serving::serve;
pub use top::serve_at;
