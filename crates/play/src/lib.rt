//! Plays a scenario on a selector over the packed card and the table radio, and prints an answer for each call. What it prints for a
//! tool is proved (`board`, `plain`); what it prints for a person is tested.

#![tactic(auto)]

mod playing;
#[cfg(test)]
mod tests;
mod wording;

pub use playing::{Style, play};
