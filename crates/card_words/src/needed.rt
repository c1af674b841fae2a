use card::{EF_AD, EF_FPLMN, EF_IMSI, EF_LOCI, FileImage};
use names::FileName;
use refusal::FileFault;
use std::alloc::AllocError;
use subscriber::file_fault;

/// A needed file, and how many bytes it has to have.
#[derive(Clone, Copy)]
pub(crate) struct Needed {
    file: u16,
    least: usize,
}

pub(crate) const IMSI: Needed = Needed {
    file: EF_IMSI,
    least: 9,
};

pub(crate) const ADMIN: Needed = Needed {
    file: EF_AD,
    least: 4,
};

pub(crate) const FORBIDDEN: Needed = Needed {
    file: EF_FPLMN,
    least: 12,
};

pub(crate) const LOCATION: Needed = Needed {
    file: EF_LOCI,
    least: 11,
};

impl Needed {
    /// Whether the file is there with all the bytes that it has to have.
    pub(crate) fn is_met(self, image: &FileImage) -> bool {
        file_fault(image, self.least).is_none()
    }

    /// What is wrong with the file; nothing where it is as it has to be.
    pub(crate) fn write_fault(self, out: &mut String, image: &FileImage) -> Result<(), AllocError> {
        let file = FileName(self.file);
        let least = self.least;
        let length = image.bytes().len();
        match file_fault(image, least) {
            Some(FileFault::Absent) => write!(out, "{file} is absent"),
            Some(FileFault::Short) => { write!(out, "{file} is short, {length} of {least} bytes") }
            None => Ok(()),
        }
    }

    /// A line for a file that is absent or short.
    pub(crate) fn write_line(self, out: &mut String, image: &FileImage) -> Result<(), AllocError> {
        if self.is_met(image) {
            return Ok(());
        }
        write!(out, "  needed file      ")?;
        self.write_fault(out, image)?;
        writeln!(out)
    }
}
