//! The tries of a run: the rows that are open at their turn, in order, until one ends the run.

#![tactic(auto)]

mod laws;
mod walk;

pub use laws::trail_is_one;
pub use walk::{AreaLists, Tried, answer_at, row_at, try_rows};
