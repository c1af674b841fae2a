//! The order of keys: which of two rows comes first, the draw, and the whole order.

#![tactic(auto)]

mod draw;
mod key;
mod keys;
mod ordering;
mod sorting;

pub use key::Key;
pub use keys::{Keys, RowOrder};
pub use ordering::order_is_one;
