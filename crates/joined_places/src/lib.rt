//! Where a row of two radios as one stands below, and how many rows are shown.

#![tactic(auto)]

mod side;

pub use side::{Side, shown, side_of};
