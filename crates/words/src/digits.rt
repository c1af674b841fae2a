ghost use Rattle.std.specs.Prelude.{◌≡◌, ◌≤◌, pos, ◌-ℤ◌, IfSome};
ghost use Rattle.words.specs.Digits.{hex_value, pair_value, four_value, six_value, digit_more, number_up_to, above, below, level_value};

use plmn::Code;

/// The value of a hexadecimal digit of either case.
fn hex_value(digit: u8) -> Option<u8>
    ensures { result ≡ hex_value digit }
{
    match digit {
        b'0'..=b'9' => Some(digit - b'0'),
        b'A'..=b'F' => Some(digit - b'A' + 10),
        b'a'..=b'f' => Some(digit - b'a' + 10),
        _ => None,
    }
}

/// The byte that two hexadecimal digits write.
pub fn hex_pair(high: u8, low: u8) -> Option<u8>
    ensures { result ≡ pair_value high low }
{
    let h = hex_value(high)?;
    let l = hex_value(low)?;
    Some(h * 16 + l)
}

/// The 16-bit number that a word of exactly four hexadecimal digits writes.
pub fn four_digits(word: &[u8]) -> Option<u16>
    ensures { result ≡ four_value word.now }
{
    if word.len() != 4 {
        return None;
    }
    let high = hex_pair(word[0], word[1])?;
    let low = hex_pair(word[2], word[3])?;
    Some(u16::from_be_bytes([high, low]))
}

/// The network code that a word of exactly six hexadecimal digits writes.
pub fn six_digits(word: &[u8]) -> Option<Code>
    ensures { result ≡ six_value word.now }
{
    if word.len() != 6 {
        return None;
    }
    let first = hex_pair(word[0], word[1])?;
    let second = hex_pair(word[2], word[3])?;
    let third = hex_pair(word[4], word[5])?;
    Some(Code::new(first, second, third))
}

/// One more decimal digit behind a number; none where it is no digit or the number passes `most`.
fn with_digit(so_far: u64, digit: u8, most: u64) -> Option<u64>
    ensures value { result ≡ digit_more most so_far digit }
    ensures small { IfSome result (λ n. n ≤ most) }
{
    if !digit.is_ascii_digit() {
        return None;
    }
    let next = so_far as u128 * 10 + (digit - b'0') as u128;
    if next <= most as u128 {
        Some(next as u64)
    } else {
        None
    }
}

/// The number that a word of decimal digits writes, where it is at most `most`.
pub fn decimal(word: &[u8], most: u64) -> Option<u64>
    ensures value { result ≡ number_up_to most word.now }
    ensures small { IfSome result (λ n. n ≤ most) }
{
    if word.is_empty() {
        return None;
    }
    let mut so_far = 0;
    for digit in word {
        so_far = with_digit(so_far, *digit, most)?;
    }
    Some(so_far)
}

fn minus(number: u64) -> i16
    requires { number ≤ 32768 }
    ensures { result ≡ pos 0 -ℤ pos number }
{
    (0 - number as i32) as i16
}

/// The level whose digits stand behind a minus sign.
fn level_below(digits: &[u8]) -> Option<i16>
    ensures { result ≡ below (number_up_to 32768 digits.now) }
{
    decimal(digits, 32768).map(|number| minus(number))
}

fn level_above(digits: &[u8]) -> Option<i16>
    ensures { result ≡ above (number_up_to 32767 digits.now) }
{
    decimal(digits, 32767).map(|number| number as i16)
}

/// The level in dBm that a word writes: a decimal number from -32768 to 32767.
pub fn signed_level(word: &[u8]) -> Option<i16>
    ensures { result ≡ level_value word.now }
{
    match word {
        [b'-', digits @ ..] => level_below(digits),
        _ => level_above(word),
    }
}
