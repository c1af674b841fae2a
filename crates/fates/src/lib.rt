//! Why a row is not tried in a run.

#![tactic(auto)]

mod judging;
mod reason;

pub use judging::{hindrance, reason_not_tried};
pub use reason::{Hindrance, Reason};
