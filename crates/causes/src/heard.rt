ghost use Rattle.std.specs.Prelude.{◌≡◌, ◌&&◌, eqb};
ghost use Rattle.plmn.specs.Codes.{same_code};
ghost use Rattle.causes.specs.Closing.{ends, shuts, closes};

use super::cause::{Effect, rule_of};
use plmn::{Area, Row};
use radio::Answer;

/// A row that was tried, and what its network answered.
#[derive(Clone, Copy)]
pub struct Heard {
    pub row: Row,
    pub answer: Answer,
}

/// Whether one row has the code and the area of another.
fn same_area(a: Row, b: Row) -> bool
    ensures { result ≡ (same_code a.code b.code && eqb a.area b.area) }
{
    Area::from(a) == Area::from(b)
}

/// Whether a rejection of one row with this effect closes another.
fn shuts_row(effect: Effect, tried: Row, row: Row) -> bool
    ensures { result ≡ shuts effect tried row }
{
    match effect {
        Effect::Forbid => tried.code == row.code,
        Effect::Roaming => same_area(tried, row),
        Effect::Nothing | Effect::Lock | Effect::Regional => false,
    }
}

impl Heard {
    /// Whether the answer ends a run: an acceptance, or a cause that ends it.
    pub fn ends_run(self) -> bool
        ensures { result ≡ ends self.answer }
    {
        match self.answer {
            Answer::Acceptance(_) => true,
            Answer::Rejection(cause) => rule_of(cause).ends,
            Answer::Silence => false,
        }
    }

    /// Whether the answer closes another row for the rest of the run.
    pub fn closes_row(self, row: Row) -> bool
        ensures { result ≡ closes self row }
    {
        match self.answer {
            Answer::Rejection(cause) => shuts_row(rule_of(cause).effect, self.row, row),
            Answer::Acceptance(_) | Answer::Silence => false,
        }
    }
}
