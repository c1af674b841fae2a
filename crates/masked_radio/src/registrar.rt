ghost use Rattle.std.specs.Prelude.{◌≡◌, ◌≤◌, length, filter};
ghost use Rattle.radio.specs.Skies.{searched};
ghost use Rattle.radio.specs.Airs.{BriefResult, sought, attempted, answer_at, code_at, entry_at, sky_of};
ghost use Rattle.mask_places.specs.Masks.{cell_in_set, masked_sky, masked_air, tried_below};
ghost use Rattle.mask_places.specs.Places.{Spot};
ghost use Rattle.masked_radio.specs.Small.{masked_brief};

use super::masked::Masked;
use mask_places::{AsRegistrar, place_below, shown_count};
use plmn::{Code, Row, TechnologySet};
use radio::{Answer, Finder, Registrar};
use refusal::Refusal;

/// How many rows with answers have a technology in the set.
fn cell_count<R: Registrar>(radio: &mut R, technologies: TechnologySet) -> usize
    ensures value { result ≡ length (filter (cell_in_set technologies.bits) (R.Registrar.air radio.old).here) }
    ensures small { result ≤ 20 }
    ensures agree { sky_of (R.Registrar.air radio.old) ≡ R.Finder.sky radio.old }
    ensures air { R.Registrar.air radio.new ≡ R.Registrar.air radio.old }
    ensures sky { R.Finder.sky radio.new ≡ R.Finder.sky radio.old }
{
    shown_count(&AsRegistrar, radio, technologies)
}

/// Where the row with its answer stands below that is at a place among those with a technology in the set.
fn cell_below<R: Registrar>(
    radio: &mut R,
    technologies: TechnologySet,
    place: usize,
) -> Option<usize>
    ensures value { Spot (cell_in_set technologies.bits) (R.Registrar.air radio.old).here place result }
    ensures air { R.Registrar.air radio.new ≡ R.Registrar.air radio.old }
    ensures sky { R.Finder.sky radio.new ≡ R.Finder.sky radio.old }
{
    place_below(&AsRegistrar, radio, technologies, place)
}

/// The row at a place among those that the set lets through.
fn entry_through<R: Registrar>(
    radio: &mut R,
    technologies: TechnologySet,
    place: usize,
) -> Result<Row, Refusal>
    ensures value { result ≡ entry_at (masked_air technologies.bits (R.Registrar.air radio.old)).here place }
    ensures air { R.Registrar.air radio.new ≡ R.Registrar.air radio.old }
    ensures sky { R.Finder.sky radio.new ≡ R.Finder.sky radio.old }
{
    let below = cell_below(radio, technologies, place).ok_or(Refusal::NoRow)?;
    radio.entry(below)
}

/// Tries the row at a place among those that the set lets through, and no other.
fn attempt_through<R: Registrar>(
    radio: &mut R,
    technologies: TechnologySet,
    place: usize,
) -> Result<Answer, Refusal>
    ensures value { result ≡ answer_at (masked_air technologies.bits (R.Registrar.air radio.old)).here place }
    ensures small { BriefResult result }
    ensures masked { masked_air technologies.bits (R.Registrar.air radio.new) ≡ attempted (masked_air technologies.bits (R.Registrar.air radio.old)) place }
    ensures air { R.Registrar.air radio.new ≡ tried_below technologies.bits (R.Registrar.air radio.old) place }
    ensures sky { R.Finder.sky radio.new ≡ R.Finder.sky radio.old }
{
    let below = cell_below(radio, technologies, place).ok_or(Refusal::NoRow)?;
    radio.attempt(below)
}

/// A code of the acceptance of the tried row at a place among those that the set lets through.
fn code_through<R: Registrar>(
    radio: &mut R,
    technologies: TechnologySet,
    place: usize,
    index: usize,
) -> Code
    ensures value { result ≡ code_at (masked_air technologies.bits (R.Registrar.air radio.old)).here place index }
    ensures air { R.Registrar.air radio.new ≡ R.Registrar.air radio.old }
    ensures sky { R.Finder.sky radio.new ≡ R.Finder.sky radio.old }
{
    match cell_below(radio, technologies, place) {
        Some(below) => radio.accepted_code(below, index),
        None => Code::EMPTY,
    }
}

impl<R: Registrar> Registrar for Masked<R> {
    ghost air = { λ m. masked_air m.technologies.bits (R.Registrar.air m.radio) };

    ghost brief = { λ m. masked_brief m.technologies.bits (R.Registrar.air m.radio) (R.Registrar.brief m.radio) };

    fn seek(&mut self)
        ensures air { masked_air self.new.technologies.bits (R.Registrar.air self.new.radio) ≡ sought (masked_air self.old.technologies.bits (R.Registrar.air self.old.radio)) }
        ensures sky { masked_sky self.new.technologies.bits (R.Finder.sky self.new.radio) ≡ searched (masked_sky self.old.technologies.bits (R.Finder.sky self.old.radio)) }
        ensures below { (R.Registrar.air self.new.radio ≡ sought (R.Registrar.air self.old.radio)) × (R.Finder.sky self.new.radio ≡ searched (R.Finder.sky self.old.radio)) }
    {
        self.radio.seek();
    }

    fn rows(&mut self) -> usize {
        cell_count(&mut self.radio, self.technologies)
    }

    fn entry(&mut self, place: usize) -> Result<Row, Refusal> {
        entry_through(&mut self.radio, self.technologies, place)
    }

    /// Tries the row below that is shown at the place, and no other.
    fn attempt(&mut self, place: usize) -> Result<Answer, Refusal>
        ensures value { result ≡ answer_at (masked_air self.old.technologies.bits (R.Registrar.air self.old.radio)).here place }
        ensures small { BriefResult result }
        ensures air { masked_air self.new.technologies.bits (R.Registrar.air self.new.radio) ≡ attempted (masked_air self.old.technologies.bits (R.Registrar.air self.old.radio)) place }
        ensures sky { masked_sky self.new.technologies.bits (R.Finder.sky self.new.radio) ≡ masked_sky self.old.technologies.bits (R.Finder.sky self.old.radio) }
        ensures below { (R.Registrar.air self.new.radio ≡ tried_below self.old.technologies.bits (R.Registrar.air self.old.radio) place) × (R.Finder.sky self.new.radio ≡ R.Finder.sky self.old.radio) }
    {
        attempt_through(&mut self.radio, self.technologies, place)
    }

    fn accepted_code(&mut self, place: usize, index: usize) -> Code {
        code_through(&mut self.radio, self.technologies, place, index)
    }
}
