ghost use Rattle.std.specs.Prelude.{◌≡◌, ◌≤◌, length};
ghost use Rattle.radio.specs.Skies.{searched, row_at};
ghost use Rattle.joined_radio.specs.Joins.{joint, joined_sky};
ghost use Rattle.joined_radio.specs.Small.{joined_small};

use super::joined::Joined;
use joined_places::{Side, shown, side_of};
use plmn::Row;
use radio::Finder;
use refusal::Refusal;

/// How many rows of the two are shown.
fn count_of<A: Finder, B: Finder>(one: &mut A, other: &mut B) -> usize
    ensures value { result ≡ length (joint (A.Finder.sky one.old).here (B.Finder.sky other.old).here) }
    ensures small { result ≤ 20 }
    ensures first { A.Finder.sky one.new ≡ A.Finder.sky one.old }
    ensures second { B.Finder.sky other.new ≡ B.Finder.sky other.old }
{
    shown(one.count(), other.count())
}

/// The row at a place of the two as one.
fn row_of<A: Finder, B: Finder>(one: &mut A, other: &mut B, place: usize) -> Result<Row, Refusal>
    ensures value { result ≡ row_at (joint (A.Finder.sky one.old).here (B.Finder.sky other.old).here) place }
    ensures first { A.Finder.sky one.new ≡ A.Finder.sky one.old }
    ensures second { B.Finder.sky other.new ≡ B.Finder.sky other.old }
{
    match side_of(place, one.count())? {
        Side::First(below) => one.row(below),
        Side::Second(below) => other.row(below),
    }
}

impl<A: Finder, B: Finder> Finder for Joined<A, B> {
    ghost sky = { λ j. joined_sky (A.Finder.sky j.first) (B.Finder.sky j.second) };

    ghost small = { λ j. joined_small (A.Finder.sky j.first) (B.Finder.sky j.second) };

    /// Searches both.
    fn search(&mut self)
        ensures sky { joined_sky (A.Finder.sky self.new.first) (B.Finder.sky self.new.second) ≡ searched (joined_sky (A.Finder.sky self.old.first) (B.Finder.sky self.old.second)) }
        ensures first { A.Finder.sky self.new.first ≡ searched (A.Finder.sky self.old.first) }
        ensures second { B.Finder.sky self.new.second ≡ searched (B.Finder.sky self.old.second) }
    {
        self.first.search();
        self.second.search();
    }

    fn count(&mut self) -> usize {
        count_of(&mut self.first, &mut self.second)
    }

    fn row(&mut self, place: usize) -> Result<Row, Refusal> {
        row_of(&mut self.first, &mut self.second, place)
    }
}
