//! Which found rows may be tried, and the class of each.

#![tactic(auto)]

mod allowed;
mod class;
mod classify;
mod facts;

pub use allowed::is_allowed;
pub use class::Class;
pub use classify::{class_of, served_home};
pub use facts::Preferences;
