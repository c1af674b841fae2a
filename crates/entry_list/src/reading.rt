ghost use Rattle.std.specs.Prelude.{◌≡◌, ◌<◌, ◌≤◌, length, IfSome};
ghost use Rattle.card.specs.Files.{bytes_of};
ghost use Rattle.card.specs.Images.{image_of};
ghost use Rattle.entry_list.specs.Entries.{entries as entriesOf, usable, serves, first_match};
ghost use Rattle.entry_list.specs.Lists.{list_of};

use super::kind::EntryKind;
use super::list::EntryList;
use super::listed::Listed;
use bounded::Bounded;
use card::FileImage;
use plmn::{Code, TechnologySet};

/// Every whole entry of a file's bytes.
fn read_bytes<K: EntryKind>(bytes: &[u8]) -> EntryList
    requires { length bytes.now ≤ 240 }
    ensures { list_of result ≡ entriesOf K.EntryKind.LENGTH K.EntryKind.meaning bytes.now }
{
    // All zero, which is the cheapest to fill the places with.
    let unused = Listed {
        code: Code::new(0, 0, 0),
        technologies: TechnologySet { bits: 0 },
    };
    let mut held = Bounded::new(unused);
    for entry in bytes.chunks_exact(K::LENGTH) {
        held.push(K::read(entry));
    }
    EntryList { held }
}

/// The position of the first entry that serves; holes and entries that do not count are passed over.
fn first_match(
    entries: &[Listed],
    supported: TechnologySet,
    code: Code,
    wanted: TechnologySet,
) -> Option<usize>
    ensures value { result ≡ first_match supported.bits code wanted.bits entries.now }
    ensures within { IfSome result (λ i. i < length entries.now) }
{
    entries
        .iter()
        .position(|e| e.serves(supported, code, wanted))
}

impl EntryList {
    /// Every whole entry of a file, in order; an absent file has none.
    pub fn read<K: EntryKind>(file: &FileImage) -> EntryList
        ensures { list_of result ≡ entriesOf K.EntryKind.LENGTH K.EntryKind.meaning (bytes_of (image_of file.now)) }
    {
        read_bytes::<K>(file.bytes())
    }

    /// The position of the first entry that serves a code and technologies, counted from 0 over all entries.
    pub fn position(
        &self,
        supported: TechnologySet,
        code: Code,
        wanted: TechnologySet,
    ) -> Option<usize>
        ensures value { result ≡ first_match supported.bits code wanted.bits (list_of self.now) }
        ensures within { IfSome result (λ i. i < length (list_of self.now)) }
    {
        first_match(self.entries(), supported, code, wanted)
    }

    pub fn entries(&self) -> &[Listed]
        ensures value { result.now ≡ list_of self.now }
        ensures small { length result.now ≤ 80 }
    {
        self.held.as_slice()
    }
}

impl Listed {
    /// Whether the entry counts at all: its code is valid and one of its technologies is supported.
    pub fn is_usable(self, supported: TechnologySet) -> bool
        ensures { result ≡ usable supported.bits self }
    {
        self.code.is_valid() && self.technologies.meets(supported)
    }

    /// Whether the entry counts, has this code, and one of the technologies wanted.
    pub fn serves(self, supported: TechnologySet, code: Code, wanted: TechnologySet) -> bool
        ensures { result ≡ serves supported.bits code wanted.bits self }
    {
        self.is_usable(supported) && self.code == code && self.technologies.meets(wanted)
    }
}
