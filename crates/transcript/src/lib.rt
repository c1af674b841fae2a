//! A recorder that writes down what the calls answer, one line for each.

#![tactic(auto)]

mod lines;
mod recording;

pub use lines::push_reply;
pub use recording::Transcript;
