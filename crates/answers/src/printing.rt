ghost use Rattle.std.specs.Prelude.{◌≡◌, ◌<◌, [], ◌∷◌, ◌++◌, string_bytes, OnOk};
ghost use Rattle.std.specs.List.{flat_map};
ghost use Rattle.answers.specs.Printed.{hex_digit, byte_text, number_text, code_bytes, bytes_text, file_text, file_line, card_head, card_text, fault_word, plain_word, refusal_word, refused_head, refusal_text, settings_text};
ghost use Rattle.refusal.specs.declared.Refusal.TheVariants.{NeededFile};

use card::{Card, take_file};
use plmn::Code;
use refusal::{FileFault, Refusal};
use std::alloc::AllocError;

/// The capital digit of a value.
fn hex_digit(value: u8) -> u8
    requires { value < 16 }
    ensures value { result ≡ hex_digit value }
    ensures small { result < 128 }
{
    if value < 10 {
        b'0' + value
    } else {
        b'A' + (value - 10)
    }
}

// No `write!`: what it costs to set up, for each byte, makes a printed card twice as dear.
fn push_digit(out: &mut String, value: u8) -> Result<(), AllocError>
    requires { value < 16 }
    ensures { OnOk result (string_bytes out.new ≡ string_bytes out.old ++ hex_digit value ∷ []) }
{
    out.push(hex_digit(value) as char)?;
    Ok(())
}

/// Two capital digits.
pub fn push_byte(out: &mut String, byte: u8) -> Result<(), AllocError>
    ensures { OnOk result (string_bytes out.new ≡ string_bytes out.old ++ byte_text byte) }
{
    push_digit(out, byte / 16)?;
    push_digit(out, byte % 16)
}

/// Four capital digits.
pub fn push_number(out: &mut String, number: u16) -> Result<(), AllocError>
    ensures { OnOk result (string_bytes out.new ≡ string_bytes out.old ++ number_text number) }
{
    push_digits(out, &number.to_be_bytes())
}

fn push_digits(out: &mut String, bytes: &[u8]) -> Result<(), AllocError>
    ensures { OnOk result (string_bytes out.new ≡ string_bytes out.old ++ flat_map byte_text bytes.now) }
{
    for byte in bytes {
        push_byte(out, *byte)?;
    }
    Ok(())
}

/// The three bytes of a network code.
fn code_bytes(code: Code) -> [u8; 3]
    ensures { result ≡ code_bytes code }
{
    [code.first, code.second, code.third]
}

/// A network code, as six capital digits.
pub fn push_code(out: &mut String, code: Code) -> Result<(), AllocError>
    ensures { OnOk result (string_bytes out.new ≡ string_bytes out.old ++ flat_map byte_text (code_bytes code)) }
{
    push_digits(out, &code_bytes(code))
}

/// The digits of all bytes, or `-` where there is none.
pub fn push_bytes(out: &mut String, bytes: &[u8]) -> Result<(), AllocError>
    ensures { OnOk result (string_bytes out.new ≡ string_bytes out.old ++ bytes_text bytes.now) }
{
    if bytes.is_empty() {
        out.push_str("-")
    } else {
        push_digits(out, bytes)
    }
}

/// A line for one file.
fn push_file(out: &mut String, file: u16, bytes: &[u8]) -> Result<(), AllocError>
    ensures { OnOk result (string_bytes out.new ≡ string_bytes out.old ++ file_text file bytes.now) }
{
    push_number(out, file)?;
    out.push_str(" ")?;
    push_bytes(out, bytes)?;
    out.push_str("\n")
}

/// The line that says how many files a card has.
pub fn push_card_head(out: &mut String, count: usize) -> Result<(), AllocError>
    ensures { OnOk result (string_bytes out.new ≡ string_bytes out.old ++ card_head count) }
{
    writeln!(out, "card: {count} files")
}

/// A line for a file that the card has now.
fn push_taken<C: Card>(out: &mut String, card: &mut C, file: u16) -> Result<(), AllocError>
    ensures after { OnOk result (string_bytes out.new ≡ string_bytes out.old ++ file_line (C.Card.files card.old) file) }
    ensures same { C.Card.files card.new ≡ C.Card.files card.old }
{
    let taken = take_file(card, file);
    push_file(out, file, taken.bytes())
}

fn push_files<C: Card>(out: &mut String, card: &mut C, numbers: &[u16]) -> Result<(), AllocError>
    ensures after { OnOk result (string_bytes out.new ≡ string_bytes out.old ++ flat_map (file_line (C.Card.files card.old)) numbers.now) }
    ensures same { C.Card.files card.new ≡ C.Card.files card.old }
{
    for file in numbers {
        push_taken(out, card, *file)?;
    }
    Ok(())
}

/// The files that a card has now, of these numbers and in their order.
pub fn push_card<C: Card>(out: &mut String, card: &mut C, numbers: &[u16]) -> Result<(), AllocError>
    ensures after { OnOk result (string_bytes out.new ≡ string_bytes out.old ++ card_text (C.Card.files card.old) numbers.now) }
    ensures same { C.Card.files card.new ≡ C.Card.files card.old }
{
    push_card_head(out, numbers.len())?;
    push_files(out, card, numbers)
}

fn push_fault(out: &mut String, fault: FileFault) -> Result<(), AllocError>
    ensures { OnOk result (string_bytes out.new ≡ string_bytes out.old ++ fault_word fault) }
{
    match fault {
        FileFault::Absent => out.push_str("absent"),
        FileFault::Short => out.push_str("short"),
    }
}

fn push_needed(out: &mut String, file: u16, fault: FileFault) -> Result<(), AllocError>
    ensures { OnOk result (string_bytes out.new ≡ string_bytes out.old ++ refusal_word (NeededFile file fault)) }
{
    push_number(out, file)?;
    out.push_str(" ")?;
    push_fault(out, fault)
}

/// The word of a refusal that names no file.
fn refusal_word(refusal: Refusal) -> &'static str
    ensures { result.now ≡ plain_word refusal }
{
    match refusal {
        Refusal::Technologies => "technologies",
        Refusal::NeededFile(_, _) => "",
        Refusal::HomeDigits => "home-digits",
        Refusal::ShortTrail => "short-trail",
        Refusal::WrongMode => "wrong-mode",
        Refusal::Locked => "locked",
        Refusal::Registered => "registered",
        Refusal::UnusableRow => "unusable-row",
        Refusal::NoPlaces => "no-places",
        Refusal::NoFile => "no-file",
        Refusal::OutsideFile => "outside-file",
        Refusal::NoRow => "no-row",
    }
}

fn push_refusal_word(out: &mut String, refusal: Refusal) -> Result<(), AllocError>
    ensures { OnOk result (string_bytes out.new ≡ string_bytes out.old ++ refusal_word refusal) }
{
    match refusal {
        Refusal::NeededFile(file, fault) => push_needed(out, file, fault),
        _ => out.push_str(refusal_word(refusal)),
    }
}

fn push_refused_head(out: &mut String, number: u8) -> Result<(), AllocError>
    ensures { OnOk result (string_bytes out.new ≡ string_bytes out.old ++ refused_head number) }
{
    write!(out, "refused {number} ")
}

/// A refusal by its number and its word.
pub fn push_refusal(out: &mut String, refusal: Refusal) -> Result<(), AllocError>
    ensures { OnOk result (string_bytes out.new ≡ string_bytes out.old ++ refusal_text refusal) }
{
    push_refused_head(out, u8::from(refusal))?;
    push_refusal_word(out, refusal)
}

/// The one line of a scenario whose settings are refused.
pub fn push_settings(out: &mut String) -> Result<(), AllocError>
    ensures { OnOk result (string_bytes out.new ≡ string_bytes out.old ++ settings_text) }
{
    out.push_str("settings: ")?;
    push_refusal(out, Refusal::Technologies)?;
    out.push_str("\n")
}
