use plmn::{Code, Row};
use radio::Answer;
use scenario::Scenario;
use statements::SkyRow;
use std::alloc::{AllocError, Global};
use table_radio::TableRow;

const NO_CODES: [Code; 5] = [Code::EMPTY; 5];

/// A row of the empty code: it ends a sky.
const END: TableRow = TableRow {
    row: Row {
        code: Code::EMPTY,
        technology: 0,
        area: 0,
        level: 0,
    },
    answer: Answer::Silence,
    codes: NO_CODES,
};

fn table_row(found: SkyRow) -> TableRow {
    let (answer, codes) = match found.answer {
        statements::Answer::Accept(given) => {
            let codes = given.codes;
            (Answer::Acceptance(given.count.min(5) as u8), codes)
        }
        statements::Answer::Cause(cause) => (Answer::Rejection(cause), NO_CODES),
        statements::Answer::Silent => (Answer::Silence, NO_CODES),
    };
    TableRow {
        row: found.row,
        answer,
        codes,
    }
}

/// A block of the table: the first twenty rows of a sky, filled up to twenty.
fn push_sky(table: &mut Vec<TableRow>, rows: &[SkyRow]) -> Result<(), AllocError> {
    for row in rows.iter().take(20) {
        table.push(table_row(*row))?;
    }
    for _ in rows.len()..20 {
        table.push(END)?;
    }
    Ok(())
}

/// The table of all skies of a scenario.
pub fn table_of(heap: Global, scenario: &Scenario) -> Result<Vec<TableRow>, AllocError> {
    let mut table = Vec::new(heap);
    let rows = scenario.rows.as_slice();
    let starts = scenario.skies.as_slice();
    for (i, start) in starts.iter().enumerate() {
        let end = starts
            .get(i.saturating_add(1))
            .copied()
            .unwrap_or(rows.len());
        push_sky(&mut table, rows.get(*start..end).unwrap_or(&[]))?;
    }
    Ok(table)
}
