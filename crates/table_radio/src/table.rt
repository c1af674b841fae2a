ghost use Rattle.std.specs.Prelude.{◌≤◌, length};

use table_rows::TableRow;

/// A table radio: the rows of the sky now, which of them were tried, and the rows of the table that are still to come.
#[derive(Drop)]
pub struct TableRadio<'a> {
    pub(crate) here: &'a [TableRow],
    pub(crate) tried: [bool; 20],
    pub(crate) rest: &'a [TableRow],
    ghost few: { length here.now ≤ 20 },
}
