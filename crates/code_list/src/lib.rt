//! Lists of codes: up to eighty, in order, and those gathered from the lists of a card.

#![tactic(auto)]

mod codes;
mod gathering;

pub use codes::CodeList;
pub use gathering::{all_codes, home_codes};
