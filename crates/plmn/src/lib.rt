//! Network codes, technologies, areas, found rows and the settings of a selector.

#![tactic(auto)]

mod area;
mod code;
mod row;
mod settings;
mod technology;

pub use area::Area;
pub use code::{Code, Digits, high_half, low_half};
pub use row::Row;
pub use settings::Settings;
pub use technology::{Technology, TechnologySet, UnknownTechnology};
