//! What a network's answer to a registration means: causes, the end of a run, and rows that are closed.

#![tactic(auto)]

mod cause;
mod heard;

pub use cause::{Effect, Rule, rule_of};
pub use heard::Heard;
