ghost use Rattle.std.specs.Prelude.{◌≡◌, ◌≤◌, List, [], map, length};
ghost use Rattle.plmn.specs.declared.row.Row.{Row as FoundRow};
ghost use Rattle.radio.specs.Skies.{Sky, row_at};
ghost use Rattle.radio.specs.Airs.{Air, row_in, sky_of};
ghost use Rattle.mask_places.specs.Masks.{Both};

use plmn::Row;
use radio::{Finder, Registrar};
use refusal::Refusal;

/// How a radio is asked for the rows of its sky now. A question leaves what the radio means.
pub trait Asks<R> {
    ghost rows: { R → List FoundRow };

    ghost meaning: { R → Both };

    // What else is known of a radio that was asked.
    ghost agree: { R → Type 0 };

    fn count(&self, radio: &mut R) -> usize
        ensures value { result ≡ length (rows radio.old) }
        ensures small { result ≤ 20 }
        ensures agree { agree radio.old }
        ensures rows { rows radio.new ≡ rows radio.old }
        ensures same { meaning radio.new ≡ meaning radio.old };

    fn row(&self, radio: &mut R, place: usize) -> Result<Row, Refusal>
        ensures value { result ≡ row_at (rows radio.old) place }
        ensures rows { rows radio.new ≡ rows radio.old }
        ensures same { meaning radio.new ≡ meaning radio.old };
}

/// Asks a radio as a finder.
#[derive(Clone, Copy)]
pub struct AsFinder;

/// Asks a radio as a registrar.
#[derive(Clone, Copy)]
pub struct AsRegistrar;

impl<R: Finder> Asks<R> for AsFinder {
    ghost rows = { λ r. (R.Finder.sky r).here };

    ghost meaning = { λ r. record { sky = R.Finder.sky r; air = record { here = []; coming = [] } } };

    ghost agree = { λ _. Unit {0} };

    fn count(&self, radio: &mut R) -> usize {
        radio.count()
    }

    fn row(&self, radio: &mut R, place: usize) -> Result<Row, Refusal> {
        radio.row(place)
    }
}

impl<R: Registrar> Asks<R> for AsRegistrar {
    ghost rows = { λ r. map row_in (R.Registrar.air r).here };

    ghost meaning = { λ r. record { sky = R.Finder.sky r; air = R.Registrar.air r } };

    ghost agree = { λ r. sky_of (R.Registrar.air r) ≡ R.Finder.sky r };

    fn count(&self, radio: &mut R) -> usize {
        radio.rows()
    }

    fn row(&self, radio: &mut R, place: usize) -> Result<Row, Refusal> {
        radio.entry(place)
    }
}
