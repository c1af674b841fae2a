//! The codes that bytes of the card hold: the IMSI code and the registered code.

#![tactic(auto)]

ghost use Rattle.std.specs.Prelude.{◌≡◌};
ghost use Rattle.std.specs.Option.{ok_or};
ghost use Rattle.refusal.specs.declared.Refusal.TheVariants.{HomeDigits as BadHomeDigits};
ghost use Rattle.imsi.specs.Identities.{byte_number, imsi_digit, imsi_digits, five_digits, mnc_length_of, third_digit, code_with, code_of_imsi, registered_in};

use card::byte_at;
use plmn::{Code, Digits, high_half, low_half};
use refusal::Refusal;

/// The byte with this number, counted from 1; 0 where there is none.
fn byte_number(bytes: &[u8], number: usize) -> u8
    ensures { result ≡ byte_number bytes.now number }
{
    if number == 0 {
        0
    } else {
        byte_at(bytes, number - 1)
    }
}

/// A digit of the IMSI, counted from 1: the first is the high half of byte 2, the next two are the low and the high half of
/// byte 3, and so on.
fn imsi_digit(imsi: &[u8], n: usize) -> u8
    ensures { result ≡ imsi_digit imsi.now n }
{
    let byte = byte_number(imsi, n / 2 + 2);
    if n % 2 == 0 {
        low_half(byte)
    } else {
        high_half(byte)
    }
}

fn imsi_digits(imsi: &[u8], mnc3: u8) -> Digits
    ensures { result ≡ imsi_digits imsi.now mnc3 }
{
    Digits {
        mcc1: imsi_digit(imsi, 1),
        mcc2: imsi_digit(imsi, 2),
        mcc3: imsi_digit(imsi, 3),
        mnc1: imsi_digit(imsi, 4),
        mnc2: imsi_digit(imsi, 5),
        mnc3,
    }
}

fn are_digits(d: Digits) -> bool
    ensures { result ≡ five_digits d }
{
    d.mcc1 < 10 && d.mcc2 < 10 && d.mcc3 < 10 && d.mnc1 < 10 && d.mnc2 < 10
}

/// The third digit of an MNC of this length: F where it has two digits.
fn third_digit(imsi: &[u8], mnc_length: u8) -> Option<u8>
    ensures { result ≡ third_digit imsi.now mnc_length }
{
    let third = imsi_digit(imsi, 6);
    match mnc_length {
        2 => Some(15),
        3 if third < 10 => Some(third),
        _ => None,
    }
}

fn code_with(imsi: &[u8], third: Option<u8>) -> Option<Code>
    ensures { result ≡ code_with imsi.now third }
{
    let digits = imsi_digits(imsi, third?);
    are_digits(digits).then_some(Code::from(digits))
}

/// The code of the subscriber's own network, from the bytes of the IMSI file and of the administrative data.
pub fn imsi_code(imsi: &[u8], admin: &[u8]) -> Result<Code, Refusal>
    ensures { result ≡ ok_or (code_of_imsi imsi.now admin.now) BadHomeDigits }
{
    let mnc_length = low_half(byte_number(admin, 4));
    let third = third_digit(imsi, mnc_length);
    code_with(imsi, third).ok_or(Refusal::HomeDigits)
}

/// The registered code, from the bytes of the location file: bytes 5 to 7, if they are a valid code.
pub fn registered_code(location: &[u8]) -> Option<Code>
    ensures { result ≡ registered_in location.now }
{
    let code = Code::new(
        byte_number(location, 5),
        byte_number(location, 6),
        byte_number(location, 7),
    );
    code.is_valid().then_some(code)
}
