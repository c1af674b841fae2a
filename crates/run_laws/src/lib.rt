//! What every run does, in the subject's words: laws over the definitions that the contract of a run cites.

#![tactic(auto)]

mod laws;

pub use laws::run_laws;
