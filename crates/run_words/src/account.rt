use causes::Heard;
use order::Preferences;
use phrases::Try;
use plmn::{Area, Code, Row};

/// A run that was carried out.
#[derive(Clone, Copy)]
pub struct Account<'a> {
    /// The rows of the sky that it heard.
    pub rows: &'a [Row],
    /// What the order depends on, as it was when the run began.
    pub preferences: &'a Preferences,
    /// The area lists, as they were when the run began.
    pub roaming: &'a [Area],
    pub regional: &'a [Area],
    pub draw: u64,
    /// The places tried, in order, and what was heard of each.
    pub places: &'a [u8],
    pub heard: &'a [Heard],
    /// The equivalent codes after the run.
    pub equivalents: &'a [Code],
}

impl Account<'_> {
    /// The row at a place of the sky.
    pub(crate) fn row_at(&self, place: u8) -> Option<Row> {
        self.rows.get(usize::from(place)).copied()
    }

    /// The try with this index, where there was one.
    pub(crate) fn try_at(&self, index: usize) -> Option<Try> {
        let place = *self.places.get(index)?;
        let answer = self.heard.get(index)?.answer;
        Some(Try { place, answer })
    }

    /// What was heard before the try with this index.
    pub(crate) fn heard_before(&self, index: usize) -> &[Heard] {
        &self.heard[..index.min(self.heard.len())]
    }
}
