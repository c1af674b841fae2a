//! The board that a scenario describes: its card, and a table radio with its skies. What it prints of calls for a tool is proved, and
//! so are the numbers of the card's files, the rows of the sky and what the order of a run depends on; the table is tested.

#![tactic(auto)]

mod board;
mod table;
#[cfg(test)]
mod tests;

pub use board::{Board, file_numbers, preferences_now, rows_now};
pub use table::table_of;
