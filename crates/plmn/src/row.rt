ghost use Rattle.std.specs.Prelude.{◌≡◌};
ghost use Rattle.plmn.specs.Areas.{area_of};

use super::area::Area;
use super::code::Code;

/// A cell that a search found: its network's code, the technology's number as it was heard, the area's number and the level
/// in dBm.
#[derive(Clone, Copy, PartialEq, Eq)]
pub struct Row {
    pub code: Code,
    pub technology: u8,
    pub area: u16,
    pub level: i16,
}

impl Row {
    /// A row of the empty code, which stands where no row is.
    pub const NONE: Row = Row {
        code: Code::EMPTY,
        technology: 0,
        area: 0,
        level: 0,
    };
}

/// The area that a row lies in.
impl From<Row> for Area {
    ghost from_gives = { λ row area. area ≡ area_of row };

    fn from(row: Row) -> Area {
        Area {
            code: row.code,
            number: row.area,
        }
    }
}
