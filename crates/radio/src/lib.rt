//! What a radio means: a finder shows the rows of a sky, and a registrar can also try them.

#![tactic(auto)]

mod answer;
mod finder;
mod laws;
mod registrar;

pub use answer::Answer;
pub use finder::{Finder, search_and_count};
pub use laws::{finder_limits, registrar_limits, search_laws, seek_laws, try_laws};
pub use registrar::{Registrar, agreed_rows, seek_and_try};
