//! A short list: a few places in memory that the caller lends, each empty or holding one element.

#![tactic(auto)]

mod element;
mod laws;
mod list;
mod places;

pub use element::{Element, Same};
pub use laws::{removing_laws, storing_laws};
pub use list::ShortList;
pub use places::holds_in;
