use packed_card::Entry;
use statements::{Call, SkyRow};

/// A scenario that was read: the board, the skies to come and the calls.
#[derive(Drop)]
pub struct Scenario {
    pub supported: u16,
    pub image: Vec<u8>,
    pub directory: Vec<Entry>,
    /// Where the rows of each sky begin.
    pub skies: Vec<usize>,
    pub rows: Vec<SkyRow>,
    pub calls: Vec<Call>,
}
