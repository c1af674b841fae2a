ghost use Rattle.std.specs.Prelude.{◌≡◌};
ghost use Rattle.row_classes.specs.Facts.{allowed as allowedRow, some_allowed};

use plmn::{Code, Row, TechnologySet};
use short_list::holds_in;

/// Whether a row may be tried: its technology is supported, its code is valid and not forbidden.
pub fn is_allowed(row: Row, supported: TechnologySet, forbidden: &[Code]) -> bool
    ensures { result ≡ allowedRow supported.bits forbidden.now row }
{
    supported.has_number(row.technology) && row.code.is_valid() && !holds_in(forbidden, row.code)
}

/// Whether some allowed row has this code.
pub(crate) fn some_allowed(
    rows: &[Row],
    code: Code,
    supported: TechnologySet,
    forbidden: &[Code],
) -> bool
    ensures { result ≡ some_allowed supported.bits forbidden.now code rows.now }
{
    rows.iter().any(|row| row.code == code && is_allowed(*row, supported, forbidden))
}
