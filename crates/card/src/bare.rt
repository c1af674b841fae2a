ghost use Rattle.std.specs.Prelude.{◌≡◌, length};
ghost use Rattle.card.specs.Files.{bare_files};
ghost use Rattle.card.specs.Small.{bare_small};

use super::cards::Card;
use super::number::{EF_AD, EF_FPLMN, EF_IMSI, EF_LOCI};
use super::stretch::{read_in, write_in};
use refusal::Refusal;

/// A card that holds the four needed files itself, at their least lengths, and no other file.
#[derive(Clone, Copy)]
pub struct BareCard {
    imsi: [u8; 9],
    admin: [u8; 4],
    forbidden: [u8; 12],
    location: [u8; 11],
    ghost sized: { (length imsi ≡ 9) × (length admin ≡ 4) × (length forbidden ≡ 12) × (length location ≡ 11) },
}

impl BareCard {
    pub fn new(imsi: [u8; 9], admin: [u8; 4], forbidden: [u8; 12], location: [u8; 11]) -> BareCard
        ensures files { bare_files result.imsi result.admin result.forbidden result.location ≡ bare_files imsi admin forbidden location }
    {
        BareCard {
            imsi,
            admin,
            forbidden,
            location,
        }
    }
}

impl Card for BareCard {
    ghost files = { λ s. bare_files s.imsi s.admin s.forbidden s.location };

    ghost small = { λ s n. bare_small s.imsi s.admin s.forbidden s.location n s.sized };

    fn length(&mut self, file: u16) -> Option<usize> {
        match file {
            EF_IMSI => Some(9),
            EF_AD => Some(4),
            EF_FPLMN => Some(12),
            EF_LOCI => Some(11),
            _ => None,
        }
    }

    fn byte(&mut self, file: u16, at: usize) -> Result<u8, Refusal> {
        match file {
            EF_IMSI => read_in(&self.imsi, at),
            EF_AD => read_in(&self.admin, at),
            EF_FPLMN => read_in(&self.forbidden, at),
            EF_LOCI => read_in(&self.location, at),
            _ => Err(Refusal::NoFile),
        }
    }

    fn update(&mut self, file: u16, start: usize, bytes: &[u8]) -> Result<(), Refusal> {
        match file {
            EF_IMSI => write_in(&mut self.imsi, start, bytes),
            EF_AD => write_in(&mut self.admin, start, bytes),
            EF_FPLMN => write_in(&mut self.forbidden, start, bytes),
            EF_LOCI => write_in(&mut self.location, start, bytes),
            _ => Err(Refusal::NoFile),
        }
    }
}
