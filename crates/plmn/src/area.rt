ghost use Rattle.plmn.specs.Areas.{same_area, empty_area};
ghost use Rattle.plmn.specs.Equality.{same_area_says};

use super::code::Code;
use short_list::{Element, Same};

/// A location or tracking area of one network: its code and a 16-bit number.
#[derive(Clone, Copy, PartialEq, Eq)]
pub struct Area {
    pub code: Code,
    pub number: u16,
}

impl Area {
    /// The empty area: the empty code with 0.
    pub const EMPTY: Area = Area {
        code: Code::EMPTY,
        number: 0,
    };
}

impl Same for Area {
    ghost alike = { same_area };

    ghost tells = { λ x y b h. h };

    ghost decides = { same_area_says };
}

impl Element for Area {
    ghost blank = { empty_area };

    fn empty() -> Area {
        Area::EMPTY
    }
}
