//! Calls carried out on a board and printed for a tool: every byte of the text, and all that the calls leave, for any radio and card.

#![tactic(auto)]

mod calls;
mod lines;
mod marks;

pub use calls::{carry_out, play_call, play_calls};
pub use marks::Marked;
