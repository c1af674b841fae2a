ghost use Rattle.radio.specs.Skies.{SmallSky, searched};
ghost use Rattle.radio.specs.Airs.{SmallAir, sought, attempted};
ghost use Rattle.radio.specs.Laws.{Searching, Seeking, Trying};

use super::finder::Finder;
use super::registrar::Registrar;

/// No sky of a finder has more than twenty rows.
pub fn finder_limits<F: Finder>(finder: &F)
    ensures { SmallSky (F.Finder.sky finder.now) }
{}

/// No sky of a registrar has more than twenty rows, and no acceptance more than five codes.
pub fn registrar_limits<R: Registrar>(registrar: &R)
    ensures { SmallAir (R.Registrar.air registrar.now) }
{}

/// What a finder's search does to its skies, in a reader's words.
pub fn search_laws<F: Finder>(finder: &F)
    ensures { Searching (F.Finder.sky finder.now) (searched (F.Finder.sky finder.now)) }
{}

/// What a registrar's search does to its skies and marks, in a reader's words.
pub fn seek_laws<R: Registrar>(registrar: &R)
    ensures { Seeking (R.Registrar.air registrar.now) (sought (R.Registrar.air registrar.now)) }
{}

/// What a try of the row at a place does, in a reader's words.
pub fn try_laws<R: Registrar>(registrar: &R, place: usize)
    ensures { Trying place (R.Registrar.air registrar.now) (attempted (R.Registrar.air registrar.now) place) }
{}
