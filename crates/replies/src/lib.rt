//! What the calls of a selector print, byte for byte.

#![tactic(auto)]

mod numbers;
mod printing;
mod states_text;

pub use numbers::{push_decimal, push_spaced};
pub use printing::{push_looked, push_mode, push_picked, push_places, push_ran};
pub use states_text::push_state;
