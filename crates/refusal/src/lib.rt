//! The one numbering of refusals.

#![tactic(auto)]

ghost use Rattle.std.specs.Prelude.{◌≡◌};
ghost use Rattle.refusal.specs.Numbers.{number_of};

/// What is wrong with a needed file of the card.
#[derive(Clone, Copy, PartialEq, Eq)]
pub enum FileFault {
    Absent,
    Short,
}

/// Why a call is not carried out. A refused call leaves everything as it was.
#[derive(Clone, Copy, PartialEq, Eq)]
pub enum Refusal {
    /// The supported technology set is empty or has a bit of no technology.
    Technologies,
    /// A needed file of the card is absent or too short: the file's number and which.
    NeededFile(u16, FileFault),
    /// The MNC length is neither 2 nor 3, or a digit of the IMSI code is above 9.
    HomeDigits,
    /// The trail has room for fewer than twenty numbers.
    ShortTrail,
    /// A run in manual mode, or a look or a pick in automatic mode.
    WrongMode,
    /// The card is locked until switch-off.
    Locked,
    /// A run while registered.
    Registered,
    /// A pick of no row, or of a row with an invalid code or an unsupported technology.
    UnusableRow,
    /// A short list without places cannot store.
    NoPlaces,
    /// The card has no such file.
    NoFile,
    /// The stretch of bytes leaves the file.
    OutsideFile,
    /// The radio has no row at the place.
    NoRow,
}

/// The number by which a refusal is known outside.
impl From<Refusal> for u8 {
    ghost from_gives = { λ refusal number. number ≡ number_of refusal };

    fn from(refusal: Refusal) -> u8 {
        match refusal {
            Refusal::Technologies => 1,
            Refusal::NeededFile(_, _) => 2,
            Refusal::HomeDigits => 3,
            Refusal::ShortTrail => 4,
            Refusal::WrongMode => 5,
            Refusal::Locked => 6,
            Refusal::Registered => 7,
            Refusal::UnusableRow => 8,
            Refusal::NoPlaces => 9,
            Refusal::NoFile => 11,
            Refusal::OutsideFile => 12,
            Refusal::NoRow => 13,
        }
    }
}
