//! Which rows a set of technologies lets through, and where they stand in the radio below.

#![tactic(auto)]

mod asks;
mod places;

pub use asks::{AsFinder, AsRegistrar, Asks};
pub use places::{place_below, shown_count};
