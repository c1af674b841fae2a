//! The rows of the sky now, taken from a radio once.

#![tactic(auto)]

mod rows;
mod taking;

pub use rows::Rows;
pub use taking::search_rows;
