//! What the answers of tried networks do to the lists, the card and the equivalent codes.

#![tactic(auto)]

mod equivalents;
mod lists;
mod location;
mod writing;

pub use equivalents::accepted_codes;
pub use lists::Lists;
pub use location::{clear_location, write_location};
pub use writing::write_codes;
