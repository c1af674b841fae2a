ghost use Rattle.std.specs.Prelude.{◌≡◌, ◌++◌, string_bytes, OnOk};
ghost use Rattle.bounded.specs.Held.{held};
ghost use Rattle.plain.specs.Plays.{tried_at, marked_below, marks_text};

use bounded::Bounded;
use radio::Registrar;
use replies::push_places;
use std::alloc::AllocError;
use table_radio::TableRadio;

/// A registrar that also says which rows of the sky now were tried.
pub trait Marked: Registrar {
    fn was_tried(&self, place: usize) -> bool
        ensures { result ≡ tried_at (Self.Registrar.air self.now).here place };
}

impl<'a> Marked for TableRadio<'a> {
    fn was_tried(&self, place: usize) -> bool {
        match self.is_tried(place) {
            Some(tried) => tried,
            None => false,
        }
    }
}

/// The tried places of the sky now, the lowest first.
fn list_marks<R: Marked>(radio: &R) -> Bounded<u8, 20>
    ensures { held result ≡ marked_below (R.Registrar.air radio.now).here 20 }
{
    let mut places = Bounded::new(0);
    for place in 0..20u8 {
        if radio.was_tried(place as usize) {
            places.push(place);
        }
    }
    places
}

/// The tried places of the sky now.
pub(crate) fn push_marks<R: Marked>(out: &mut String, radio: &R) -> Result<(), AllocError>
    ensures { OnOk result (string_bytes out.new ≡ string_bytes out.old ++ marks_text (R.Registrar.air radio.now).here) }
{
    let places = list_marks(radio);
    out.push_str("marks:")?;
    push_places(out, places.as_slice())?;
    out.push_str("\n")
}
