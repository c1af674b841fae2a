ghost use Rattle.std.specs.Prelude.{◌≡◌, Some};
ghost use Rattle.names.specs.Names.{known_name, name_of, names_of, set_names};

use plmn::{Technology, TechnologySet};
use std::fmt;

/// The technology with this number, by its name: `GSM`, or `technology 9` where the number stands for none.
#[derive(Clone, Copy)]
pub struct TechnologyName(pub u8);

/// The name of a technology.
pub fn technology_name(technology: Technology) -> &'static str
    ensures { result.now ≡ known_name technology }
{
    match technology {
        Technology::Gsm => "GSM",
        Technology::Utran => "UTRAN",
        Technology::Eutran => "E-UTRAN",
    }
}

impl fmt::Display for TechnologyName {
    ghost output = { λ t. Some (name_of t.0) };

    fn fmt<W: fmt::Write>(&self, f: &mut fmt::Formatter<W>) -> fmt::Result {
        let number = self.0;
        match Technology::try_from(number) {
            Ok(technology) => f.pad(technology_name(technology)),
            Err(_) => write!(f, "technology {number}"),
        }
    }
}

fn names(utran: bool, eutran: bool, gsm: bool) -> &'static str
    ensures { result.now ≡ names_of utran eutran gsm }
{
    match (utran, eutran, gsm) {
        (true, true, true) => "every technology",
        (true, true, false) => "UTRAN, E-UTRAN",
        (true, false, true) => "UTRAN, GSM",
        (true, false, false) => "UTRAN",
        (false, true, true) => "E-UTRAN, GSM",
        (false, true, false) => "E-UTRAN",
        (false, false, true) => "GSM",
        (false, false, false) => "no known technology",
    }
}

/// The names of the known technologies in a set.
pub fn technologies(set: TechnologySet) -> &'static str
    ensures { result.now ≡ set_names set.bits }
{
    let utran = set.has(Technology::Utran);
    let eutran = set.has(Technology::Eutran);
    let gsm = set.has(Technology::Gsm);
    names(utran, eutran, gsm)
}
