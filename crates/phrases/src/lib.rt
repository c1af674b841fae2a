//! States, refusals, rows, classes, answers and reasons in words for a person. How a run begins is proved; the other words are
//! tested.

#![tactic(auto)]

mod answer;
mod class;
mod reason;
mod refusal_words;
mod row;
mod run;
mod state;
#[cfg(test)]
mod tests;

pub use answer::AnswerWords;
pub use class::ClassWords;
pub use reason::{Try, hindrance_words};
pub use refusal_words::{FaultWords, RefusalWords};
pub use row::RowWords;
pub use run::RunHead;
pub use state::StateWords;
