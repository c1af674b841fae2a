use names::FileName;
use refusal::{FileFault, Refusal};
use std::fmt;

/// What is wrong with a needed file: `EF_LOCI (6F7E) is absent`.
#[derive(Clone, Copy)]
pub struct FaultWords {
    pub file: u16,
    pub fault: FileFault,
}

/// A refusal: `refused (7): a network is registered`.
#[derive(Clone, Copy)]
pub struct RefusalWords(pub Refusal);

impl fmt::Display for FaultWords {
    fn fmt<W: fmt::Write>(&self, f: &mut fmt::Formatter<W>) -> fmt::Result {
        let file = FileName(self.file);
        match self.fault {
            FileFault::Absent => write!(f, "{file} is absent"),
            FileFault::Short => write!(f, "{file} is too short"),
        }
    }
}

/// Why a call that names no file is refused.
fn cause_of(refusal: Refusal) -> &'static str {
    match refusal {
        Refusal::Technologies => "the supported technologies are none, or not all known",
        Refusal::NeededFile(_, _) => "a needed file is absent or too short",
        Refusal::HomeDigits => "the card gives no code of its home network",
        Refusal::ShortTrail => "the trail has room for fewer than twenty places",
        Refusal::WrongMode => "the call is for the other mode",
        Refusal::Locked => "the card is locked",
        Refusal::Registered => "a network is registered",
        Refusal::UnusableRow => "there is no row at this place that can be tried",
        Refusal::NoPlaces => "the list has no places",
        Refusal::NoFile => "the card has no such file",
        Refusal::OutsideFile => "the stretch leaves the file",
        Refusal::NoRow => "there is no row at this place",
    }
}

impl fmt::Display for RefusalWords {
    fn fmt<W: fmt::Write>(&self, f: &mut fmt::Formatter<W>) -> fmt::Result {
        let number = u8::from(self.0);
        match self.0 {
            Refusal::NeededFile(file, fault) => {
                let words = FaultWords { file, fault };
                write!(f, "refused ({number}): {words}")
            }
            _ => {
                let cause = cause_of(self.0);
                write!(f, "refused ({number}): {cause}")
            }
        }
    }
}
