//! A radio over a table in memory that the caller lends: each block of twenty rows is a sky.

#![tactic(auto)]

mod laws;
mod marks;
mod radios;
mod start;
mod table;

pub use laws::table_laws;
pub use table::TableRadio;
pub use table_rows::TableRow;
