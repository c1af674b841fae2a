//! Two radios as one: the rows of the first, and then the rows of the second.

#![tactic(auto)]

mod finder;
mod joined;
mod laws;
mod registrar;

pub use joined::Joined;
pub use laws::{joined_air_laws, joined_sky_laws, joined_try_laws};
