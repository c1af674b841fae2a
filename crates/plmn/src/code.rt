ghost use Rattle.std.specs.Prelude.{◌≡◌, ◌<◌};
ghost use Rattle.plmn.specs.Codes.{valid_code, empty_code, same_code, matching, low, high, digit as digitIs, digits_of, code_of};
ghost use Rattle.plmn.specs.Equality.{same_code_says};

use short_list::{Element, Same};

/// The code of a network (a PLMN), as three bytes. By 3GPP TS 24.008 they hold, low half first, MCC digits 1 and 2, MCC
/// digit 3 and MNC digit 3, MNC digits 1 and 2. A two-digit MNC has F as its third digit.
#[derive(Clone, Copy, PartialEq, Eq)]
pub struct Code {
    pub first: u8,
    pub second: u8,
    pub third: u8,
}

/// The six half bytes of a code, by the digit that each holds.
#[derive(Clone, Copy)]
pub struct Digits {
    pub mcc1: u8,
    pub mcc2: u8,
    pub mcc3: u8,
    pub mnc1: u8,
    pub mnc2: u8,
    pub mnc3: u8,
}

pub fn low_half(byte: u8) -> u8
    ensures { result ≡ low byte }
{
    byte % 16
}

pub fn high_half(byte: u8) -> u8
    ensures { result ≡ high byte }
{
    byte / 16
}

fn is_digit(half: u8) -> bool
    ensures { result ≡ digitIs half }
{
    half < 10
}

impl Code {
    /// The empty code: FF FF FF.
    pub const EMPTY: Code = Code {
        first: 255,
        second: 255,
        third: 255,
    };

    pub fn new(first: u8, second: u8, third: u8) -> Code
        ensures { result ≡ record { first = first; second = second; third = third } }
    {
        Code {
            first,
            second,
            third,
        }
    }

    /// Whether MNC digit 3 is 0 to 9 or F, and the other five digits are 0 to 9. The empty code is not valid.
    pub fn is_valid(self) -> bool
        ensures { result ≡ valid_code self }
    {
        let d = Digits::from(self);
        is_digit(d.mcc1)
            && is_digit(d.mcc2)
            && is_digit(d.mcc3)
            && is_digit(d.mnc1)
            && is_digit(d.mnc2)
            && (is_digit(d.mnc3) || d.mnc3 == 15)
    }

    /// Whether both are the same valid code: an invalid code matches nothing.
    pub fn matches(self, other: Code) -> bool
        ensures { result ≡ matching self other }
    {
        self.is_valid() && self == other
    }
}

/// The six half bytes of a code, each as the digit that it holds.
impl From<Code> for Digits {
    ghost from_gives = { λ code digits. digits ≡ digits_of code };

    fn from(code: Code) -> Digits {
        Digits {
            mcc1: low_half(code.first),
            mcc2: high_half(code.first),
            mcc3: low_half(code.second),
            mnc1: low_half(code.third),
            mnc2: high_half(code.third),
            mnc3: high_half(code.second),
        }
    }
}

/// The code with these digits; of each only the low half counts.
impl From<Digits> for Code {
    ghost from_gives = { λ digits code. code ≡ code_of digits };

    fn from(digits: Digits) -> Code {
        Code {
            first: low_half(digits.mcc2) * 16 + low_half(digits.mcc1),
            second: low_half(digits.mnc3) * 16 + low_half(digits.mcc3),
            third: low_half(digits.mnc2) * 16 + low_half(digits.mnc1),
        }
    }
}

impl Same for Code {
    ghost alike = { same_code };

    ghost tells = { λ x y b h. h };

    ghost decides = { same_code_says };
}

impl Element for Code {
    ghost blank = { empty_code };

    fn empty() -> Code {
        Code::EMPTY
    }
}
