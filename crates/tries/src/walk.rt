ghost use Rattle.std.specs.Prelude.{◌≡◌, ◌<◌, ◌≤◌, ◌||◌, length, if◌then◌else◌, Some, None, MatchResult, slice_set};
ghost use Rattle.refusal.specs.declared.Refusal.TheVariants.{ShortTrail as TrailRefused};
ghost use Rattle.bounded.specs.Held.{held};
ghost use Rattle.ranking.specs.Lists.{order_in};
ghost use Rattle.radio.specs.Airs.{attempted};
ghost use Rattle.causes.specs.Closing.{closed};
ghost use Rattle.tries.specs.Turns.{heard_sky, at, barred, shut};
ghost use Rattle.tries.specs.Walks.{Walked};

use bounded::Bounded;
use causes::Heard;
use plmn::{Area, Row};
use radio::{Answer, Finder, Registrar};
use ranking::{Key, RowOrder};
use refusal::Refusal;
use short_list::holds_in;

/// The two lists of areas that a row can be barred by.
#[derive(Clone, Copy)]
pub struct AreaLists<'a> {
    pub roaming: &'a [Area],
    pub regional: &'a [Area],
}

impl<'a> AreaLists<'a> {
    /// Whether the row's area is in one of the two lists.
    pub fn bars(&self, row: Row) -> bool
        ensures { result ≡ barred self.now.roaming.now self.now.regional.now row }
    {
        let area = Area::from(row);
        holds_in(self.roaming, area) || holds_in(self.regional, area)
    }
}

/// Whether what was heard before closes the row.
fn is_closed(done: &[Heard], row: Row) -> bool
    ensures { result ≡ closed done.now row }
{
    done.iter().any(|h| h.closes_row(row))
}

fn is_shut(row: Row, areas: &AreaLists, done: &[Heard]) -> bool
    ensures { result ≡ shut (barred areas.now.roaming.now areas.now.regional.now) done.now row }
{
    areas.bars(row) || is_closed(done, row)
}

/// The row at a place of the sky; an empty one where there is none.
pub fn row_at<R: Registrar>(radio: &mut R, place: usize) -> Row
    ensures value { result ≡ (at (heard_sky (R.Registrar.air radio.old).here) place).row }
    ensures air { R.Registrar.air radio.new ≡ R.Registrar.air radio.old }
{
    radio.entry(place).unwrap_or(Row::NONE)
}

/// Tries the row at a place of the sky, and gives its network's answer; silence where there is no row.
pub fn answer_at<R: Registrar>(radio: &mut R, place: usize) -> Answer
    ensures value { result ≡ (at (heard_sky (R.Registrar.air radio.old).here) place).answer }
    ensures air { R.Registrar.air radio.new ≡ attempted (R.Registrar.air radio.old) place }
{
    radio.attempt(place).unwrap_or(Answer::Silence)
}

/// Tries the row at a place, unless it is shut.
fn try_open<R: Registrar>(
    radio: &mut R,
    place: usize,
    areas: &AreaLists,
    done: &[Heard],
) -> Option<Heard>
    ensures value { result ≡ (if shut (barred areas.now.roaming.now areas.now.regional.now) done.now (at (heard_sky (R.Registrar.air radio.old).here) place).row then None else Some (at (heard_sky (R.Registrar.air radio.old).here) place)) }
    ensures air { R.Registrar.air radio.new ≡ (if shut (barred areas.now.roaming.now areas.now.regional.now) done.now (at (heard_sky (R.Registrar.air radio.old).here) place).row then R.Registrar.air radio.old else attempted (R.Registrar.air radio.old) place) }
{
    let row = row_at(radio, place);
    if is_shut(row, areas, done) {
        return None;
    }
    let answer = answer_at(radio, place);
    Some(Heard { row, answer })
}

/// What the tries of a run gave: what was heard, in order, and what ended the run.
#[derive(Clone, Copy)]
pub struct Tried {
    pub heard: Bounded<Heard, 20>,
    pub end: Option<Heard>,
}

/// Writes the place of a try to the trail.
fn write_place(trail: &mut [u8], count: usize, place: u8)
    requires { count < length trail.old }
    ensures { trail.new ≡ slice_set trail.old count place }
{
    trail[count] = place;
}

/// Tries the rows that are open at their turn, in order, until one ends the run, and writes their places to the trail.
fn walk<R: Registrar>(radio: &mut R, order: &[Key], areas: &AreaLists, trail: &mut [u8]) -> Tried
    requires few { length order.now ≤ 20 }
    requires long { 20 ≤ length trail.old }
    ensures { Walked (barred areas.now.roaming.now areas.now.regional.now) (R.Registrar.air radio.old) order.now trail.old (length (held result.heard)) (held result.heard) result.end trail.new (R.Registrar.air radio.new) }
{
    let mut heard = Bounded::new(Heard {
        row: Row::NONE,
        answer: Answer::Silence,
    });
    for k in order {
        let place = k.place;
        let done = heard.as_slice();
        let count = done.len();
        if let Some(h) = try_open(radio, place as usize, areas, done) {
            write_place(trail, count, place);
            heard.push(h);
            if h.ends_run() {
                let end = Some(h);
                return Tried { heard, end };
            }
        }
    }
    Tried { heard, end: None }
}

/// Tries the rows that are open at their turn, in order, until one ends the run, and writes their places to the trail. It is
/// refused, and leaves radio and trail, where the trail has room for fewer than twenty numbers.
pub fn try_rows<R: Registrar>(
    radio: &mut R,
    order: &RowOrder,
    areas: &AreaLists,
    trail: &mut [u8],
) -> Result<Tried, Refusal>
    ensures { MatchResult result
        (λ t. (20 ≤ length trail.old) × Walked (barred areas.now.roaming.now areas.now.regional.now) (R.Registrar.air radio.old) (order_in order.now) trail.old (length (held t.heard)) (held t.heard) t.end trail.new (R.Registrar.air radio.new))
        (λ e. (length trail.old < 20) × (e ≡ TrailRefused) × (trail.new ≡ trail.old) × (R.Registrar.air radio.new ≡ R.Registrar.air radio.old)) }
{
    if trail.len() < 20 {
        return Err(Refusal::ShortTrail);
    }
    Ok(walk(radio, order.keys(), areas, trail))
}
