//! The lists of codes on a card: entry kinds, and the one reading that serves every kind.

#![tactic(auto)]

mod kind;
mod laws;
mod list;
mod listed;
mod reading;

pub use kind::{EntryKind, FullEntry, ShortEntry};
pub use laws::matching_laws;
pub use list::EntryList;
pub use listed::Listed;
