ghost use Rattle.std.specs.Prelude.{◌≡◌, ◌≤◌, length};
ghost use Rattle.radio.specs.Skies.{searched};
ghost use Rattle.radio.specs.Airs.{Air, SmallAir, BriefResult, sought, attempted, answer_at, code_at, entry_at, sky_of};

use super::answer::Answer;
use super::finder::Finder;
use plmn::{Code, Row};
use refusal::Refusal;

/// A registrar is a finder that can also try a row. Its meaning adds to the skies the answer of each row's network, and which
/// rows of the sky now have been tried. It has a search and questions of its own, which keep account of both meanings: a
/// question leaves both as they are.
pub trait Registrar: Finder {
    ghost air: { Self → Air };

    // No sky, now or to come, has more than twenty rows, and no acceptance more than five codes.
    ghost brief: { (s : Self) → SmallAir (air s) };

    /// Searches, and clears the marks.
    fn seek(&mut self)
        ensures air { air self.new ≡ sought (air self.old) }
        ensures sky { Self.Finder.sky self.new ≡ searched (Self.Finder.sky self.old) };

    /// How many rows the sky now has. The rows with answers and marks are the rows that the finder shows.
    fn rows(&mut self) -> usize
        ensures value { result ≡ length (air self.old).here }
        ensures small { result ≤ 20 }
        ensures agree { sky_of (air self.old) ≡ Self.Finder.sky self.old }
        ensures air { air self.new ≡ air self.old }
        ensures sky { Self.Finder.sky self.new ≡ Self.Finder.sky self.old };

    /// The row at a place of the sky now; places count from 0.
    fn entry(&mut self, place: usize) -> Result<Row, Refusal>
        ensures value { result ≡ entry_at (air self.old).here place }
        ensures air { air self.new ≡ air self.old }
        ensures sky { Self.Finder.sky self.new ≡ Self.Finder.sky self.old };

    /// Tries the row at a place: gives the answer of its network and marks the row. Where there is no row it is refused and
    /// leaves everything as it is.
    fn attempt(&mut self, place: usize) -> Result<Answer, Refusal>
        ensures value { result ≡ answer_at (air self.old).here place }
        ensures small { BriefResult result }
        ensures air { air self.new ≡ attempted (air self.old) place }
        ensures sky { Self.Finder.sky self.new ≡ Self.Finder.sky self.old };

    /// The code at an index of the acceptance of a tried row. Where there is none, the empty code.
    fn accepted_code(&mut self, place: usize, index: usize) -> Code
        ensures value { result ≡ code_at (air self.old).here place index }
        ensures air { air self.new ≡ air self.old }
        ensures sky { Self.Finder.sky self.new ≡ Self.Finder.sky self.old };
}

/// A search, and then a try of the row at a place.
pub fn seek_and_try<R: Registrar>(registrar: &mut R, place: usize) -> Result<Answer, Refusal>
    ensures value { result ≡ answer_at (sought (R.Registrar.air registrar.old)).here place }
    ensures small { BriefResult result }
    ensures air { R.Registrar.air registrar.new ≡ attempted (sought (R.Registrar.air registrar.old)) place }
    ensures sky { R.Finder.sky registrar.new ≡ searched (R.Finder.sky registrar.old) }
{
    registrar.seek();
    registrar.attempt(place)
}

/// How many rows the sky now has. From then on both meanings are known to agree.
pub fn agreed_rows<R: Registrar>(registrar: &mut R) -> usize
    ensures value { result ≡ length (R.Registrar.air registrar.old).here }
    ensures agree { sky_of (R.Registrar.air registrar.new) ≡ R.Finder.sky registrar.new }
    ensures air { R.Registrar.air registrar.new ≡ R.Registrar.air registrar.old }
    ensures sky { R.Finder.sky registrar.new ≡ R.Finder.sky registrar.old }
{
    registrar.rows()
}
