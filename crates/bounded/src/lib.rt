//! A list of up to N elements in memory of its own: no heap, and a copy that cannot fail.

#![tactic(auto, unfolding(crate::specs::Held::held))]

mod bounded;
mod items;

pub use bounded::Bounded;
