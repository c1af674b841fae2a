ghost use Rattle.std.specs.Prelude.{◌≡◌};

use card::{Card, take_file};
use names::file_name;
use std::alloc::AllocError;

/// The bytes with a space before each, or `-` where there is none.
fn write_bytes(out: &mut String, bytes: &[u8]) -> Result<(), AllocError> {
    if bytes.is_empty() {
        return write!(out, " -");
    }
    for byte in bytes {
        write!(out, " {byte:02X}")?;
    }
    Ok(())
}

fn describe_file(out: &mut String, file: u16, bytes: &[u8]) -> Result<(), AllocError> {
    let name = file_name(file).unwrap_or("");
    write!(out, "  {file:04X} {name:<12}")?;
    write_bytes(out, bytes)?;
    writeln!(out)
}

/// The files that a card has now, of these numbers and in their order, with their names.
pub fn describe_card<C: Card>(
    out: &mut String,
    card: &mut C,
    numbers: &[u16],
) -> Result<(), AllocError>
    ensures same { C.Card.files card.new ≡ C.Card.files card.old }
{
    for file in numbers {
        let taken = take_file(card, *file);
        describe_file(out, *file, taken.bytes())?;
    }
    Ok(())
}
