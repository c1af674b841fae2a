ghost use Rattle.std.specs.Prelude.{◌≡◌, ◌<◌, ◌≤◌, length, take, drop, OnSome};
ghost use Rattle.std.specs.List.{prefix_len, slice_get};
ghost use Rattle.table_rows.specs.Tables.{named, cut};

use super::row::TableRow;
use plmn::Code;

/// How many rows stand before the first with the empty code.
fn leading_named(block: &[TableRow]) -> usize
    ensures value { result ≡ prefix_len named block.now }
    ensures within { result ≤ length block.now }
{
    block
        .iter()
        .take_while(|e| e.row.code != Code::EMPTY)
        .count()
}

/// The first n rows, or all where there are fewer.
pub fn first_rows(rows: &[TableRow], n: usize) -> &[TableRow]
    ensures { result.now ≡ take n rows.now }
{
    &rows[..n.min(rows.len())]
}

/// The rows after the first n.
pub fn rows_after(rows: &[TableRow], n: usize) -> &[TableRow]
    ensures { result.now ≡ drop n rows.now }
{
    &rows[n.min(rows.len())..]
}

/// The sky that rows to come begin with.
pub fn first_sky(rest: &[TableRow]) -> &[TableRow]
    ensures value { result.now ≡ cut (take 20 rest.now) }
    ensures small { length result.now ≤ 20 }
{
    let block = first_rows(rest, 20);
    &block[..leading_named(block)]
}

/// The row or the mark at a place, where there is one.
pub fn item_at<T: Copy>(rows: &[T], place: usize) -> Option<T>
    ensures value { result ≡ slice_get rows.now place }
    ensures within { OnSome result (place < length rows.now) }
{
    rows.get(place).copied()
}
