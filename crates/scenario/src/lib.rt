//! The scenario language: a text is read into a scenario. What happens where memory fails is only tested.

#![tactic(auto)]

mod building;
mod reading;
mod scenarios;
#[cfg(test)]
mod tests;

pub use reading::read;
pub use scenarios::Scenario;
