ghost use Rattle.tries.specs.Laws.{OneTrail};

/// The order of turns, the answers and the area lists leave one trail only.
pub fn trail_is_one()
    ensures { OneTrail }
{}
