//! What the card says of its subscriber: the needed files, the home codes, the registered code and the lists.

#![tactic(auto)]

mod identity;
mod needed;
mod reading;

pub use code_list::{CodeList, home_codes};
pub use identity::{Identity, Subscriber};
pub use imsi::{imsi_code, registered_code};
pub use needed::file_fault;
