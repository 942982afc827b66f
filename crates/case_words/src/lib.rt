//! The words of the programs of cases, and the loop that they share.
#![tactic(auto)]

mod lines;
mod lists;
mod words;

pub use lines::{answer_lines, answer_steps};
pub use lists::{add_part, eight_list, list_text, number_list, sends_text};
pub use words::{
    add_answer, add_bytes, add_debug, blob, bytes, counted, debug_text, eight, flags, halves,
    long_text, no_case, number, number8, number16, number64, ok_text, refusal_text, seven, sixteen,
    size, text, text_units, told, truth, word,
};
