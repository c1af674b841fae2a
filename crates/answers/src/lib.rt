//! What a call prints, byte by byte. The layout for a person is only tested.

#![tactic(auto)]

mod printing;
mod wording;

pub use printing::{push_card, push_code, push_refusal, push_settings};
pub use wording::describe_card;
