ghost use Rattle.std.specs.Prelude.{◌≡◌, map};
ghost use Rattle.radio.specs.Airs.{row_in, sought};
ghost use Rattle.tries.specs.Turns.{heard_sky, at};
ghost use Rattle.found_rows.specs.Found.{rows_in};

use super::rows::Rows;
use bounded::Bounded;
use plmn::Row;
use radio::{Finder, Registrar};
use tries::row_at;

/// The row at a place of the sky now.
fn take_row<R: Registrar>(radio: &mut R, place: usize) -> Row
    ensures value { result ≡ (at (heard_sky (R.Registrar.air radio.old).here) place).row }
    ensures air { R.Registrar.air radio.new ≡ R.Registrar.air radio.old }
{
    row_at(radio, place)
}

/// The rows of the sky now, each asked once.
fn take_rows<R: Registrar>(radio: &mut R) -> Rows
    ensures value { rows_in result ≡ map row_in (R.Registrar.air radio.old).here }
    ensures air { R.Registrar.air radio.new ≡ R.Registrar.air radio.old }
{
    let mut held = Bounded::new(Row::NONE);
    let count = radio.rows();
    for place in 0..count {
        held.push(take_row(radio, place));
    }
    Rows { held }
}

impl Rows {
    pub fn rows(&self) -> &[Row]
        ensures { result.now ≡ rows_in self.now }
    {
        self.held.as_slice()
    }
}

/// Searches, and gives the rows that the search found.
pub fn search_rows<R: Registrar>(radio: &mut R) -> Rows
    ensures value { rows_in result ≡ map row_in (sought (R.Registrar.air radio.old)).here }
    ensures air { R.Registrar.air radio.new ≡ sought (R.Registrar.air radio.old) }
{
    radio.seek();
    take_rows(radio)
}
