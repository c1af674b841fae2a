use super::row_words::FoundRow;
use fates::hindrance;
use order::{Preferences, class_of, order_rows, served_home};
use phrases::{ClassWords, hindrance_words};
use plmn::Row;
use std::alloc::AllocError;

/// A line for each row, by place.
pub fn describe_rows(out: &mut String, rows: &[Row]) -> Result<(), AllocError> {
    for (place, row) in rows.iter().enumerate() {
        writeln!(out, "{}", FoundRow { place, row: *row })?;
    }
    Ok(())
}

/// A line for each of the first twenty rows, by place: what was found, and its class and turn or why it has none.
pub fn describe_order(
    out: &mut String,
    rows: &[Row],
    preferences: &Preferences,
    draw: u64,
) -> Result<(), AllocError> {
    let rows = &rows[..rows.len().min(20)];
    let home = served_home(rows, preferences);
    let order = order_rows(rows, preferences, draw);
    let forbidden = preferences.card.forbidden.codes();
    for (place, row) in rows.iter().enumerate() {
        write!(out, "{}", FoundRow { place, row: *row })?;
        let index = order
            .keys()
            .iter()
            .position(|key| usize::from(key.place) == place);
        if let Some(index) = index {
            let class = ClassWords(class_of(*row, preferences, home));
            let turn = index.saturating_add(1);
            writeln!(out, "  {class}, turn {turn}")?;
        } else if let Some(hindrance) = hindrance(*row, preferences.supported, forbidden) {
            let words = hindrance_words(hindrance);
            writeln!(out, "  not allowed: {words}")?;
        }
    }
    Ok(())
}
