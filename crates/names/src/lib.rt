//! Networks, technologies and files by the names that people use. The names of technologies are proved; the others are tested.

#![tactic(auto)]

mod files;
mod network;
mod technology;

pub use files::{FileName, file_name};
pub use network::{Network, Networks};
pub use technology::{TechnologyName, technologies, technology_name};
