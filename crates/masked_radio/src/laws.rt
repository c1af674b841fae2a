ghost use Rattle.mask_places.specs.Masks.{in_set, offer_in_set, cell_in_set, masked_sky, masked_air, tried_below};
ghost use Rattle.masked_radio.specs.Laws.{Shows, ShowsEach, TryingBelow};

use plmn::TechnologySet;
use radio::{Finder, Registrar};

/// Which rows of a finder a mask shows, in a reader's words.
pub fn masked_sky_laws<R: Finder>(radio: &R, technologies: TechnologySet)
    ensures here { Shows (in_set technologies.bits) (R.Finder.sky radio.now).here (masked_sky technologies.bits (R.Finder.sky radio.now)).here }
    ensures coming { ShowsEach (in_set technologies.bits) (R.Finder.sky radio.now).coming (masked_sky technologies.bits (R.Finder.sky radio.now)).coming }
{}

/// The same of a registrar's rows, with their answers and marks.
pub fn masked_air_laws<R: Registrar>(radio: &R, technologies: TechnologySet)
    ensures here { Shows (cell_in_set technologies.bits) (R.Registrar.air radio.now).here (masked_air technologies.bits (R.Registrar.air radio.now)).here }
    ensures coming { ShowsEach (offer_in_set technologies.bits) (R.Registrar.air radio.now).coming (masked_air technologies.bits (R.Registrar.air radio.now)).coming }
{}

/// What a try through a mask does to the registrar below, in a reader's words.
pub fn masked_try_laws<R: Registrar>(radio: &R, technologies: TechnologySet, place: usize)
    ensures { TryingBelow technologies.bits (R.Registrar.air radio.now) (tried_below technologies.bits (R.Registrar.air radio.now) place) }
{}
