//! How found rows are ordered, in words for a person. The name of a technology is proved; all other words and their layout are
//! only tested.

#![tactic(auto)]

mod order_words;
mod row_words;
mod technology;

pub use order_words::{describe_order, describe_rows};
pub use technology::technology_name;
