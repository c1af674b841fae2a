//! The rows of a table in memory: which of them a sky shows, and what their networks answer.

#![tactic(auto)]

mod blocks;
mod replies;
mod row;

pub use blocks::{first_rows, first_sky, item_at, rows_after};
pub use replies::{answer_of, code_of};
pub use row::TableRow;
