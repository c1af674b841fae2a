//! Plays a scenario on a selector over the packed card and the table radio, and prints an answer for each call.

#![tactic(auto)]

mod playing;
#[cfg(test)]
mod tests;

pub use playing::{Style, play};
