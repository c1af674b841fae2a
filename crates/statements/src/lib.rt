//! The statements of the scenario language: what a line says, or why it cannot be read. What a reason prints is only tested.

#![tactic(auto)]

mod arguments;
mod fault;
mod parsing;
mod statement;

pub use fault::{Fault, Reason};
pub use parsing::parse;
pub use statement::{Answer, Call, Codes, SkyRow, Statement};
