ghost use Rattle.std.specs.Prelude.{◌≡◌};
ghost use Rattle.radio.specs.Skies.{searched, row_at};
ghost use Rattle.mask_places.specs.Masks.{masked_sky};
ghost use Rattle.masked_radio.specs.Small.{masked_small};

use super::masked::Masked;
use mask_places::{AsFinder, Asks, place_below, shown_count};
use plmn::{Row, TechnologySet};
use radio::Finder;
use refusal::Refusal;

/// The row at a place among those that the set lets through.
fn row_through<R: Finder>(
    radio: &mut R,
    technologies: TechnologySet,
    place: usize,
) -> Result<Row, Refusal>
    ensures value { result ≡ row_at (masked_sky technologies.bits (R.Finder.sky radio.old)).here place }
    ensures same { R.Finder.sky radio.new ≡ R.Finder.sky radio.old }
{
    let below = place_below(&AsFinder, radio, technologies, place).ok_or(Refusal::NoRow)?;
    radio.row(below)
}

impl<R: Finder> Finder for Masked<R> {
    ghost sky = { λ m. masked_sky m.technologies.bits (R.Finder.sky m.radio) };

    ghost small = { λ m. masked_small m.technologies.bits (R.Finder.sky m.radio) (R.Finder.small m.radio) };

    fn search(&mut self)
        ensures sky { masked_sky self.new.technologies.bits (R.Finder.sky self.new.radio) ≡ searched (masked_sky self.old.technologies.bits (R.Finder.sky self.old.radio)) }
        ensures below { R.Finder.sky self.new.radio ≡ searched (R.Finder.sky self.old.radio) }
    {
        self.radio.search();
    }

    fn count(&mut self) -> usize {
        shown_count(&AsFinder, &mut self.radio, self.technologies)
    }

    fn row(&mut self, place: usize) -> Result<Row, Refusal> {
        row_through(&mut self.radio, self.technologies, place)
    }
}
