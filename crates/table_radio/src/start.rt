ghost use Rattle.std.specs.Prelude.{◌≡◌, ◌<◌, ◌≤◌, OnOk, false, length, take, drop, replicate};
ghost use Rattle.std.specs.List.{slice_get};
ghost use Rattle.std.specs.Option.{ok_or, option_map};
ghost use Rattle.refusal.specs.declared.Refusal.TheVariants.{NoRow};
ghost use Rattle.table_rows.specs.Tables.{cut, table_sky, table_air, start_sky, start_air};

use super::table::TableRadio;
use plmn::Row;
use refusal::Refusal;
use table_rows::{TableRow, first_rows, first_sky, item_at, rows_after};

impl<'a> TableRadio<'a> {
    /// A radio over the first 10,000 rows of a table. The sky now is empty, and every sky of the table is to come.
    pub fn new(table: &'a [TableRow]) -> TableRadio<'a>
        ensures sky { table_sky result.here.now result.rest.now ≡ start_sky table.now }
        ensures air { table_air result.here.now result.tried result.rest.now ≡ start_air table.now }
    {
        TableRadio {
            here: &[],
            tried: [false; 20],
            rest: first_rows(table, 10000),
        }
    }

    /// Goes on to the next sky, with no row tried.
    pub(crate) fn advance(&mut self)
        ensures here { self.new.here.now ≡ cut (take 20 self.old.rest.now) }
        ensures rest { self.new.rest.now ≡ drop 20 self.old.rest.now }
        ensures marks { self.new.tried ≡ replicate 20 false }
    {
        self.here = first_sky(self.rest);
        self.rest = rows_after(self.rest, 20);
        self.tried = [false; 20];
    }

    /// Whether the row at a place of the sky now was tried; none where there is no row.
    pub fn is_tried(&self, place: usize) -> Option<bool>
        ensures { result ≡ slice_get (take (length self.now.here.now) self.now.tried) place }
    {
        item_at(&self.tried[..self.here.len()], place)
    }

    /// The row of the table at a place of the sky now, or the refusal.
    pub(crate) fn found(&self, place: usize) -> Result<TableRow, Refusal>
        ensures value { result ≡ ok_or (slice_get self.now.here.now place) NoRow }
        ensures within { OnOk result (place < length self.now.here.now) }
    {
        item_at(self.here, place).ok_or(Refusal::NoRow)
    }

    /// The row at a place of the sky now, or the refusal.
    pub(crate) fn found_row(&self, place: usize) -> Result<Row, Refusal>
        ensures { result ≡ ok_or (option_map (λ e. e.row) (slice_get self.now.here.now place)) NoRow }
    {
        self.found(place).map(|found| found.row)
    }

    /// How many rows the sky now has.
    pub(crate) fn here_count(&self) -> usize
        ensures value { result ≡ length self.now.here.now }
        ensures small { result ≤ 20 }
    {
        self.here.len()
    }
}
