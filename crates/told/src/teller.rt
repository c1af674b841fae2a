use bounded::Bounded;
use causes::Heard;
use packed_card::PackedCard;
use phrases::RefusalWords;
use plmn::{Row, TechnologySet};
use radio::Finder;
use refusal::Refusal;
use selector::On;
use std::alloc::{AllocError, Global};
use table_radio::TableRadio;
use tries::{answer_at, row_at};

/// A play that is told to a person: what it is written to, the radio and the card that it is on, and the selector.
#[derive(Drop)]
pub(crate) struct Teller<'t, 'r, 'c> {
    pub(crate) heap: Global,
    pub(crate) out: &'t mut String,
    pub(crate) radio: &'t mut TableRadio<'r>,
    pub(crate) card: &'t mut PackedCard<'c>,
    pub(crate) supported: TechnologySet,
    pub(crate) on: &'t mut On,
}

impl Teller<'_, '_, '_> {
    pub(crate) fn tell_refusal(&mut self, refusal: Refusal) -> Result<(), AllocError> {
        writeln!(self.out, "{}", RefusalWords(refusal))
    }

    /// The rows of the sky now, of which there are twenty at most.
    pub(crate) fn rows(&mut self) -> Bounded<Row, 20> {
        let mut rows = Bounded::new(Row::NONE);
        for place in 0..20 {
            if let Ok(row) = self.radio.row(place) {
                rows.push(row);
            }
        }
        rows
    }

    /// What was heard at a place that was tried: its network answers the same again.
    pub(crate) fn heard_at(&mut self, place: usize) -> Heard {
        let row = row_at(self.radio, place);
        let answer = answer_at(self.radio, place);
        Heard { row, answer }
    }
}
