//! The states of a selector, what changes them, and the checks that depend on them.

#![tactic(auto)]

mod checks;
mod state;

pub use checks::{is_usable, may_look, may_run};
pub use state::{Event, Mode, RunAnswer, Serving, State};
