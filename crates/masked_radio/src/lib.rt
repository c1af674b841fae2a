//! A radio seen through a set of technologies: rows of other technologies are hidden.

#![tactic(auto)]

mod finder;
mod laws;
mod masked;
mod registrar;

pub use laws::{masked_air_laws, masked_sky_laws, masked_try_laws};
pub use masked::Masked;
