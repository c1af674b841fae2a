ghost use Rattle.joined_places.specs.Places.{Stands};
ghost use Rattle.std.specs.Prelude.{◌≡◌, ◌+◌, min};

use refusal::Refusal;

/// Where a row of a joined sky stands below: in the first radio or in the second.
#[derive(Clone, Copy)]
pub enum Side {
    First(usize),
    Second(usize),
}

/// Where the row at a place stands, when the first radio's sky has this many rows; no row past the twentieth is shown.
pub fn side_of(place: usize, first_rows: usize) -> Result<Side, Refusal>
    ensures { Stands place first_rows result }
{
    if place >= 20 {
        return Err(Refusal::NoRow);
    }
    Ok(if place < first_rows {
        Side::First(place)
    } else {
        Side::Second(place - first_rows)
    })
}

/// How many rows are shown, when the two skies have so many rows: all, or twenty.
pub fn shown(first_rows: usize, second_rows: usize) -> usize
    ensures { result ≡ min 20 (first_rows + second_rows) }
{
    first_rows.saturating_add(second_rows).min(20)
}
