ghost use Rattle.std.specs.Prelude.{◌≡◌, ◌≤◌, length};
ghost use Rattle.radio.specs.Skies.{Sky, SmallSky, searched, row_at};

use plmn::Row;
use refusal::Refusal;

/// A finder means a sky now, of up to twenty rows, and the skies to come. A question may use the device, so it takes `&mut self`,
/// but leaves the skies as they are.
pub trait Finder {
    ghost sky: { Self → Sky };

    // No sky, now or to come, has more than twenty rows.
    ghost small: { (s : Self) → SmallSky (sky s) };

    /// Makes the first sky to come the sky now; where none waits, the sky now becomes empty.
    fn search(&mut self)
        ensures sky { sky self.new ≡ searched (sky self.old) };

    /// How many rows the sky now has.
    fn count(&mut self) -> usize
        ensures value { result ≡ length (sky self.old).here }
        ensures small { result ≤ 20 }
        ensures same { sky self.new ≡ sky self.old };

    /// The row at a place of the sky now; places count from 0.
    fn row(&mut self, place: usize) -> Result<Row, Refusal>
        ensures value { result ≡ row_at (sky self.old).here place }
        ensures same { sky self.new ≡ sky self.old };
}

/// A search, and then how many rows the sky has that it made the sky now.
pub fn search_and_count<F: Finder>(finder: &mut F) -> u8
    ensures value { result ≡ length (searched (F.Finder.sky finder.old)).here }
    ensures small { result ≤ 20 }
    ensures sky { F.Finder.sky finder.new ≡ searched (F.Finder.sky finder.old) }
{
    finder.search();
    finder.count() as u8
}
