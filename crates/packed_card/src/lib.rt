//! A card image: bytes that are handed over, and a directory that says which of them are which file.

#![tactic(auto)]

mod building;
mod entry;
mod good;
mod packed;

pub use entry::Entry;
pub use packed::PackedCard;
