use plmn::{Code, Digits};
use std::fmt;
use std::fmt::InlineText;

/// A network by its code: `262-02` or `001-011`, `no code` for the empty code, and for any other `12FFFF (invalid)`.
#[derive(Clone, Copy)]
pub struct Network(pub Code);

/// The networks of the codes that are not empty, or `none`.
#[derive(Clone, Copy)]
pub struct Networks<'a>(pub &'a [Code]);

/// MCC and MNC, the latter with two digits or three.
fn mcc_mnc(digits: Digits) -> InlineText<16> {
    let Digits {
        mcc1,
        mcc2,
        mcc3,
        mnc1,
        mnc2,
        mnc3,
    } = digits;
    if mnc3 == 15 {
        InlineText::of(format_args!("{mcc1}{mcc2}{mcc3}-{mnc1}{mnc2}"))
    } else {
        InlineText::of(format_args!("{mcc1}{mcc2}{mcc3}-{mnc1}{mnc2}{mnc3}"))
    }
}

fn code_text(code: Code) -> InlineText<16> {
    let Code {
        first,
        second,
        third,
    } = code;
    if code.is_valid() {
        mcc_mnc(Digits::from(code))
    } else if code == Code::EMPTY {
        InlineText::of("no code")
    } else {
        InlineText::of(format_args!("{first:02X}{second:02X}{third:02X} (invalid)"))
    }
}

impl fmt::Display for Network {
    fn fmt<W: fmt::Write>(&self, f: &mut fmt::Formatter<W>) -> fmt::Result {
        f.pad(code_text(self.0).as_str())
    }
}

impl<'a> fmt::Display for Networks<'a> {
    fn fmt<W: fmt::Write>(&self, f: &mut fmt::Formatter<W>) -> fmt::Result {
        let mut codes = self.0.iter().filter(|code| **code != Code::EMPTY);
        let Some(first) = codes.next() else {
            return f.write_str("none");
        };
        write!(f, "{}", Network(*first))?;
        for code in codes {
            write!(f, ", {}", Network(*code))?;
        }
        Ok(())
    }
}
