ghost use Rattle.std.specs.Prelude.{◌≡◌, ◌≤◌, Bool, length, filter};
ghost use Rattle.mask_places.specs.Masks.{in_set};
ghost use Rattle.mask_places.specs.Places.{pass_at, Spot};

use super::asks::Asks;
use plmn::TechnologySet;

/// Whether there is a row at a place, and its technology is in the set.
fn is_shown<R, Q: Asks<R>>(
    asked: &Q,
    radio: &mut R,
    technologies: TechnologySet,
    place: usize,
) -> bool
    ensures value { result ≡ pass_at (in_set technologies.bits) (Q.Asks.rows radio.old) place }
    ensures rows { Q.Asks.rows radio.new ≡ Q.Asks.rows radio.old }
    ensures same { Q.Asks.meaning radio.new ≡ Q.Asks.meaning radio.old }
{
    asked
        .row(radio, place)
        .is_ok_and(|row| technologies.has_number(row.technology))
}

/// How many rows of the sky now have a technology in the set.
pub fn shown_count<R, Q: Asks<R>>(asked: &Q, radio: &mut R, technologies: TechnologySet) -> usize
    ensures value { result ≡ length (filter (in_set technologies.bits) (Q.Asks.rows radio.old)) }
    ensures small { result ≤ 20 }
    ensures agree { Q.Asks.agree radio.old }
    ensures same { Q.Asks.meaning radio.new ≡ Q.Asks.meaning radio.old }
{
    // A loop: tried as `filter` and `count`, but a closure that holds the radio leaves nothing known of it, so the proof does not close.
    let count = asked.count(radio);
    let mut shown = 0;
    for i in 0..count {
        if is_shown(asked, radio, technologies, i) {
            shown += 1;
        }
    }
    shown
}

/// Where the row stands below that is at a place among those with a technology in the set.
pub fn place_below<R, Q: Asks<R>>(
    asked: &Q,
    radio: &mut R,
    technologies: TechnologySet,
    place: usize,
) -> Option<usize>
    ensures value { Spot (in_set technologies.bits) (Q.Asks.rows radio.old) place result }
    ensures same { Q.Asks.meaning radio.new ≡ Q.Asks.meaning radio.old }
{
    // A loop for the same reason as in `shown_count`.
    let count = asked.count(radio);
    let mut seen = 0;
    for i in 0..count {
        if is_shown(asked, radio, technologies, i) {
            if seen == place {
                return Some(i);
            }
            seen += 1;
        }
    }
    None
}
