ghost use Rattle.std.specs.Prelude.{◌≡◌, Bool};
ghost use Rattle.plmn.specs.Technologies.{number_of, Numbers, bit_of, common, has_technology, has_number};

use std::error::Error;
use std::fmt;

/// The radio technologies that the selector knows. Every other number is kept as it is and never supported.
#[derive(Clone, Copy, PartialEq, Eq)]
pub enum Technology {
    Gsm,
    Utran,
    Eutran,
}

/// A set of technologies as 16 bits: 8000 UTRAN, 4000 E-UTRAN, 0080 GSM (3GPP TS 31.102).
#[derive(Clone, Copy)]
pub struct TechnologySet {
    pub bits: u16,
}

/// A number that stands for no technology that the selector knows.
#[derive(Clone, Copy, Debug, PartialEq, Eq)]
pub struct UnknownTechnology(pub u8);

impl TryFrom<u8> for Technology {
    type Error = UnknownTechnology;

    ghost try_from_gives = { Numbers };

    fn try_from(number: u8) -> Result<Technology, UnknownTechnology> {
        match number {
            0 => Ok(Technology::Gsm),
            2 => Ok(Technology::Utran),
            7 => Ok(Technology::Eutran),
            _ => Err(UnknownTechnology(number)),
        }
    }
}

impl From<Technology> for u8 {
    ghost from_gives = { λ technology number. number ≡ number_of technology };

    fn from(technology: Technology) -> u8 {
        match technology {
            Technology::Gsm => 0,
            Technology::Utran => 2,
            Technology::Eutran => 7,
        }
    }
}

/// The set of this technology alone.
impl From<Technology> for TechnologySet {
    ghost from_gives = { λ technology set. set.bits ≡ bit_of technology };

    fn from(technology: Technology) -> TechnologySet {
        let bits = match technology {
            Technology::Gsm => 0x0080,
            Technology::Utran => 0x8000,
            Technology::Eutran => 0x4000,
        };
        TechnologySet { bits }
    }
}

impl fmt::Display for UnknownTechnology {
    fn fmt<W: fmt::Write>(&self, f: &mut fmt::Formatter<W>) -> fmt::Result {
        write!(f, "no known technology has the number {}", self.0)
    }
}

impl Error for UnknownTechnology {}

impl TechnologySet {
    /// Every bit: what an entry means that names no set.
    pub const EVERY: TechnologySet = TechnologySet { bits: 0xFFFF };

    /// Whether some bit is in both sets.
    pub fn meets(self, other: TechnologySet) -> bool
        ensures { result ≡ common self.bits other.bits }
    {
        self.bits & other.bits != 0
    }

    pub fn has(self, technology: Technology) -> bool
        ensures { result ≡ has_technology self.bits technology }
    {
        self.meets(TechnologySet::from(technology))
    }

    /// Whether the technology with this number is in the set; a number that the selector does not know is in none.
    pub fn has_number(self, number: u8) -> bool
        ensures { result ≡ has_number self.bits number }
    {
        match Technology::try_from(number) {
            Ok(technology) => self.has(technology),
            Err(_) => false,
        }
    }
}
