ghost use Rattle.std.specs.Prelude.{take};
ghost use Rattle.table_rows.specs.Tables.{skies};
ghost use Rattle.table_radio.specs.Laws.{Standing};

use table_rows::TableRow;

/// Which rows of a table stand in which of its skies, in a reader's words.
pub fn table_laws(table: &[TableRow])
    ensures { Standing table.now (skies (take 10000 table.now)) }
{}
