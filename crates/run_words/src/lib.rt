//! A run in words for a person: the rows in the order of their turns with their classes, what each answered, and why each other
//! row was passed over. Why a row was passed over is proved (`fates`); the words are tested.

#![tactic(auto)]

mod account;
mod telling;

pub use account::Account;
pub use telling::describe_run;
