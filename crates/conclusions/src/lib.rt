//! What follows the answers of tried rows: the state, the equivalents, and what is written to the card.

#![tactic(auto)]

mod concluding;

pub use concluding::{equivalents_by, keep_forbidden, keep_location, state_by};
