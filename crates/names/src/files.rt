use card::{EF_AD, EF_EHPLMN, EF_FPLMN, EF_IMSI, EF_LOCI, EF_OPLMN_W_ACT, EF_PLMN_W_ACT};
use std::fmt;

/// The name of a file in 3GPP TS 31.102; none for a file that the selector does not know.
pub fn file_name(file: u16) -> Option<&'static str> {
    let name = match file {
        EF_IMSI => "EF_IMSI",
        EF_AD => "EF_AD",
        EF_FPLMN => "EF_FPLMN",
        EF_LOCI => "EF_LOCI",
        EF_EHPLMN => "EF_EHPLMN",
        EF_PLMN_W_ACT => "EF_PLMNwAcT",
        EF_OPLMN_W_ACT => "EF_OPLMNwAcT",
        _ => return None,
    };
    Some(name)
}

/// A file by its name and number, `EF_LOCI (6F7E)`, or by its number alone.
#[derive(Clone, Copy)]
pub struct FileName(pub u16);

impl fmt::Display for FileName {
    fn fmt<W: fmt::Write>(&self, f: &mut fmt::Formatter<W>) -> fmt::Result {
        let number = self.0;
        match file_name(number) {
            Some(name) => write!(f, "{name} ({number:04X})"),
            None => write!(f, "file {number:04X}"),
        }
    }
}
