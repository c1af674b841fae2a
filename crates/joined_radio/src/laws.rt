ghost use Rattle.joined_radio.specs.Joins.{joined_sky, joined_air, first_tried, second_tried};
ghost use Rattle.joined_radio.specs.Laws.{Joining, JoiningSkies, TryingBoth};

use radio::{Finder, Registrar};

/// Which rows stand in the skies of two finders joined, in a reader's words.
pub fn joined_sky_laws<A: Finder, B: Finder>(one: &A, other: &B)
    ensures here { Joining (A.Finder.sky one.now).here (B.Finder.sky other.now).here (joined_sky (A.Finder.sky one.now) (B.Finder.sky other.now)).here }
    ensures coming { JoiningSkies (A.Finder.sky one.now).coming (B.Finder.sky other.now).coming (joined_sky (A.Finder.sky one.now) (B.Finder.sky other.now)).coming }
{}

/// The same of the rows of two registrars, with their answers and marks.
pub fn joined_air_laws<A: Registrar, B: Registrar>(one: &A, other: &B)
    ensures here { Joining (A.Registrar.air one.now).here (B.Registrar.air other.now).here (joined_air (A.Registrar.air one.now) (B.Registrar.air other.now)).here }
    ensures coming { JoiningSkies (A.Registrar.air one.now).coming (B.Registrar.air other.now).coming (joined_air (A.Registrar.air one.now) (B.Registrar.air other.now)).coming }
{}

/// What a try through two registrars joined does to each of them, in a reader's words.
pub fn joined_try_laws<A: Registrar, B: Registrar>(one: &A, other: &B, place: usize)
    ensures { TryingBoth place (A.Registrar.air one.now) (B.Registrar.air other.now) (first_tried (A.Registrar.air one.now) place) (second_tried (A.Registrar.air one.now) (B.Registrar.air other.now) place) }
{}
