ghost use Rattle.std.specs.Prelude.{◌≡◌, ◌≤◌, length};
ghost use Rattle.radio.specs.Skies.{searched};
ghost use Rattle.radio.specs.Airs.{BriefResult, sought, attempted, answer_at, code_at, entry_at, sky_of};
ghost use Rattle.joined_radio.specs.Joins.{joint, joined_sky, joined_air, first_tried, second_tried};
ghost use Rattle.joined_radio.specs.Small.{joined_brief};

use super::joined::Joined;
use joined_places::{Side, shown, side_of};
use plmn::{Code, Row};
use radio::{Answer, Finder, Registrar};
use refusal::Refusal;

/// Searches both.
fn seek_both<A: Registrar, B: Registrar>(one: &mut A, other: &mut B)
    ensures first { (A.Registrar.air one.new ≡ sought (A.Registrar.air one.old)) × (A.Finder.sky one.new ≡ searched (A.Finder.sky one.old)) }
    ensures second { (B.Registrar.air other.new ≡ sought (B.Registrar.air other.old)) × (B.Finder.sky other.new ≡ searched (B.Finder.sky other.old)) }
{
    one.seek();
    other.seek();
}

/// How many rows of the two are shown. Both agree as finders and registrars.
fn rows_of<A: Registrar, B: Registrar>(one: &mut A, other: &mut B) -> usize
    ensures value { result ≡ length (joint (A.Registrar.air one.old).here (B.Registrar.air other.old).here) }
    ensures small { result ≤ 20 }
    ensures agree { sky_of (joined_air (A.Registrar.air one.old) (B.Registrar.air other.old)) ≡ joined_sky (A.Finder.sky one.old) (B.Finder.sky other.old) }
    ensures first { (A.Registrar.air one.new ≡ A.Registrar.air one.old) × (A.Finder.sky one.new ≡ A.Finder.sky one.old) }
    ensures second { (B.Registrar.air other.new ≡ B.Registrar.air other.old) × (B.Finder.sky other.new ≡ B.Finder.sky other.old) }
{
    shown(one.rows(), other.rows())
}

/// The row at a place of the two as one.
fn entry_of<A: Registrar, B: Registrar>(
    one: &mut A,
    other: &mut B,
    place: usize,
) -> Result<Row, Refusal>
    ensures value { result ≡ entry_at (joint (A.Registrar.air one.old).here (B.Registrar.air other.old).here) place }
    ensures first { (A.Registrar.air one.new ≡ A.Registrar.air one.old) × (A.Finder.sky one.new ≡ A.Finder.sky one.old) }
    ensures second { (B.Registrar.air other.new ≡ B.Registrar.air other.old) × (B.Finder.sky other.new ≡ B.Finder.sky other.old) }
{
    // One match a call: a helper over two closures, one for each radio, would be no shorter, and its clauses longer.
    match side_of(place, one.rows())? {
        Side::First(below) => one.entry(below),
        Side::Second(below) => other.entry(below),
    }
}

/// Tries the row at a place of the two as one, and no other.
fn attempt_of<A: Registrar, B: Registrar>(
    one: &mut A,
    other: &mut B,
    place: usize,
) -> Result<Answer, Refusal>
    ensures value { result ≡ answer_at (joint (A.Registrar.air one.old).here (B.Registrar.air other.old).here) place }
    ensures small { BriefResult result }
    ensures both { joined_air (A.Registrar.air one.new) (B.Registrar.air other.new) ≡ attempted (joined_air (A.Registrar.air one.old) (B.Registrar.air other.old)) place }
    ensures first { (A.Registrar.air one.new ≡ first_tried (A.Registrar.air one.old) place) × (A.Finder.sky one.new ≡ A.Finder.sky one.old) }
    ensures second { (B.Registrar.air other.new ≡ second_tried (A.Registrar.air one.old) (B.Registrar.air other.old) place) × (B.Finder.sky other.new ≡ B.Finder.sky other.old) }
{
    match side_of(place, one.rows())? {
        Side::First(below) => one.attempt(below),
        Side::Second(below) => other.attempt(below),
    }
}

/// A code of the acceptance of the tried row at a place of the two as one.
fn code_of<A: Registrar, B: Registrar>(
    one: &mut A,
    other: &mut B,
    place: usize,
    index: usize,
) -> Code
    ensures value { result ≡ code_at (joint (A.Registrar.air one.old).here (B.Registrar.air other.old).here) place index }
    ensures first { (A.Registrar.air one.new ≡ A.Registrar.air one.old) × (A.Finder.sky one.new ≡ A.Finder.sky one.old) }
    ensures second { (B.Registrar.air other.new ≡ B.Registrar.air other.old) × (B.Finder.sky other.new ≡ B.Finder.sky other.old) }
{
    match side_of(place, one.rows()) {
        Ok(Side::First(below)) => one.accepted_code(below, index),
        Ok(Side::Second(below)) => other.accepted_code(below, index),
        Err(_) => Code::EMPTY,
    }
}

impl<A: Registrar, B: Registrar> Registrar for Joined<A, B> {
    ghost air = { λ j. joined_air (A.Registrar.air j.first) (B.Registrar.air j.second) };

    ghost brief = { λ j. joined_brief (A.Registrar.air j.first) (B.Registrar.air j.second) (A.Registrar.brief j.first) (B.Registrar.brief j.second) };

    /// Searches both.
    fn seek(&mut self)
        ensures air { joined_air (A.Registrar.air self.new.first) (B.Registrar.air self.new.second) ≡ sought (joined_air (A.Registrar.air self.old.first) (B.Registrar.air self.old.second)) }
        ensures sky { joined_sky (A.Finder.sky self.new.first) (B.Finder.sky self.new.second) ≡ searched (joined_sky (A.Finder.sky self.old.first) (B.Finder.sky self.old.second)) }
        ensures first { (A.Registrar.air self.new.first ≡ sought (A.Registrar.air self.old.first)) × (A.Finder.sky self.new.first ≡ searched (A.Finder.sky self.old.first)) }
        ensures second { (B.Registrar.air self.new.second ≡ sought (B.Registrar.air self.old.second)) × (B.Finder.sky self.new.second ≡ searched (B.Finder.sky self.old.second)) }
    {
        seek_both(&mut self.first, &mut self.second);
    }

    fn rows(&mut self) -> usize {
        rows_of(&mut self.first, &mut self.second)
    }

    fn entry(&mut self, place: usize) -> Result<Row, Refusal> {
        entry_of(&mut self.first, &mut self.second, place)
    }

    /// Tries the row below that is shown at the place, and no other.
    fn attempt(&mut self, place: usize) -> Result<Answer, Refusal>
        ensures value { result ≡ answer_at (joined_air (A.Registrar.air self.old.first) (B.Registrar.air self.old.second)).here place }
        ensures small { BriefResult result }
        ensures air { joined_air (A.Registrar.air self.new.first) (B.Registrar.air self.new.second) ≡ attempted (joined_air (A.Registrar.air self.old.first) (B.Registrar.air self.old.second)) place }
        ensures sky { joined_sky (A.Finder.sky self.new.first) (B.Finder.sky self.new.second) ≡ joined_sky (A.Finder.sky self.old.first) (B.Finder.sky self.old.second) }
        ensures first { (A.Registrar.air self.new.first ≡ first_tried (A.Registrar.air self.old.first) place) × (A.Finder.sky self.new.first ≡ A.Finder.sky self.old.first) }
        ensures second { (B.Registrar.air self.new.second ≡ second_tried (A.Registrar.air self.old.first) (B.Registrar.air self.old.second) place) × (B.Finder.sky self.new.second ≡ B.Finder.sky self.old.second) }
    {
        attempt_of(&mut self.first, &mut self.second, place)
    }

    fn accepted_code(&mut self, place: usize, index: usize) -> Code {
        code_of(&mut self.first, &mut self.second, place, index)
    }
}
