//! The selector: off or on, its states, and its calls.

#![tactic(auto)]

mod calls;
mod conclude;
mod run;
mod switched;

pub use states::{Mode, RunAnswer, Serving, State};
pub use switched::{Off, On};
