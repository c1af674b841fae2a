//! The same answers for a person. Their layout is tested, and not proved.
ghost use Rattle.std.specs.Prelude.{◌≡◌};

use super::printing::{push_byte, push_card_head, push_number};
use card::{
    Card, EF_AD, EF_EHPLMN, EF_FPLMN, EF_IMSI, EF_LOCI, EF_OPLMN_W_ACT, EF_PLMN_W_ACT, take_file,
};
use std::alloc::AllocError;

/// The name of a file in 3GPP TS 31.102, at one width.
fn file_name(file: u16) -> &'static str {
    match file {
        EF_IMSI => "EF_IMSI     ",
        EF_AD => "EF_AD       ",
        EF_FPLMN => "EF_FPLMN    ",
        EF_LOCI => "EF_LOCI     ",
        EF_EHPLMN => "EF_EHPLMN   ",
        EF_PLMN_W_ACT => "EF_PLMNwAcT ",
        EF_OPLMN_W_ACT => "EF_OPLMNwAcT",
        _ => "            ",
    }
}

/// The bytes with a space before each, or `-` where there is none.
fn push_spaced(out: &mut String, bytes: &[u8]) -> Result<(), AllocError> {
    if bytes.len() == 0 {
        return out.push_str(" -");
    }
    for byte in bytes {
        out.push_str(" ")?;
        push_byte(out, *byte)?;
    }
    Ok(())
}

fn describe_file(out: &mut String, file: u16, bytes: &[u8]) -> Result<(), AllocError> {
    push_number(out, file)?;
    out.push_str(" ")?;
    out.push_str(file_name(file))?;
    push_spaced(out, bytes)?;
    out.push_str("\n")
}

/// The files that a card has now, with their names.
pub fn describe_card<C: Card>(
    out: &mut String,
    card: &mut C,
    numbers: &[u16],
) -> Result<(), AllocError>
    ensures same { C.Card.files card.new ≡ C.Card.files card.old }
{
    push_card_head(out, numbers.len())?;
    for file in numbers {
        let taken = take_file(card, *file);
        describe_file(out, *file, taken.bytes())?;
    }
    Ok(())
}
