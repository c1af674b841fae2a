//! Calls played on two selectors over any two makes of radio and card, and what they have in common: the theorem.

#![tactic(auto)]

mod both;
mod call;
mod playing;
mod recorder;
mod serving;

pub use both::play_on_both;
pub use call::{Call, Reply};
pub use playing::play_calls;
pub use recorder::{Recorder, Unheeding};
pub use serving::{Served, make_call, serve};
