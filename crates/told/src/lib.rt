//! Calls carried out on a board and told to a person. What is told is tested.

#![tactic(auto)]

mod calls;
mod runs;
mod teller;

pub use calls::{tell_call, tell_settings};
