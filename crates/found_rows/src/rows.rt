use bounded::Bounded;
use plmn::Row;

/// The rows of the sky now, as they were taken from a radio.
#[derive(Clone, Copy)]
pub struct Rows {
    pub(crate) held: Bounded<Row, 20>,
}
