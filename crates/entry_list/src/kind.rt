ghost use Rattle.std.specs.Prelude.{◌≡◌, ℕ, ◌≤◌, List};
ghost use Rattle.entry_list.specs.declared.listed.Listed.{Listed};
ghost use Rattle.entry_list.specs.Entries.{code_in, set_in, every_if_none, short_entry, full_entry};
ghost use Rattle.std.proofs.Common.{rules};

use super::listed::Listed;
use card::byte_at;
use plmn::{Code, TechnologySet};

/// A kind of entry: how many bytes one entry has, and what they mean.
pub trait EntryKind {
    const LENGTH: usize;

    // The same number, for contracts.
    ghost LENGTH: { ℕ };

    ghost meaning: { List ℕ → Listed };

    /// The entry with these bytes; bytes that are wanting count as 0.
    fn read(bytes: &[u8]) -> Listed
        ensures { result ≡ meaning bytes.now };

    ghost long: { 3 ≤ LENGTH };
}

fn code_in(bytes: &[u8]) -> Code
    ensures { result ≡ code_in bytes.now }
{
    Code::new(byte_at(bytes, 0), byte_at(bytes, 1), byte_at(bytes, 2))
}

/// A set of 0000 means every technology.
fn every_if_none(bits: u16) -> TechnologySet
    ensures { result.bits ≡ every_if_none bits }
{
    if bits == 0 {
        TechnologySet::EVERY
    } else {
        TechnologySet { bits }
    }
}

fn set_in(bytes: &[u8]) -> u16
    ensures { result ≡ set_in bytes.now }
{
    u16::from_be_bytes([byte_at(bytes, 3), byte_at(bytes, 4)])
}

/// Three bytes: a code that counts for every technology.
pub struct ShortEntry;

impl EntryKind for ShortEntry {
    const LENGTH: usize = 3;

    ghost LENGTH = { 3 };

    ghost meaning = { short_entry };

    ghost long = { Prim.search rules };

    fn read(bytes: &[u8]) -> Listed {
        Listed {
            code: code_in(bytes),
            technologies: TechnologySet::EVERY,
        }
    }
}

/// Five bytes: a code, then its technologies as a set, high byte first.
pub struct FullEntry;

impl EntryKind for FullEntry {
    const LENGTH: usize = 5;

    ghost LENGTH = { 5 };

    ghost meaning = { full_entry };

    ghost long = { Prim.search rules };

    fn read(bytes: &[u8]) -> Listed {
        Listed {
            code: code_in(bytes),
            technologies: every_if_none(set_in(bytes)),
        }
    }
}
