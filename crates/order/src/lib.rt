//! In which order the rows that may be tried take their turns.

#![tactic(auto)]

mod ordering;

pub use ordering::order_rows;
pub use row_classes::{Class, Preferences, class_of, is_allowed, served_home};
