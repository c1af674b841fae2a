ghost use Rattle.std.specs.Prelude.{◌≡◌, ◌+◌, ◌<◌, ◌≤◌, [], ◌∷◌, ◌++◌, length, if◌then◌else◌, nat_lt};
ghost use Rattle.plmn.specs.Codes.{same_code, empty_code};
ghost use Rattle.short_list.specs.Places.{stored, removed};
ghost use Rattle.entry_list.specs.Lists.{list_of};
ghost use Rattle.code_list.specs.Codes.{codes_in, codes_of, valid_codes, home_codes};

use super::codes::CodeList;
use bounded::Bounded;
use entry_list::EntryList;
use plmn::Code;
use short_list::ShortList;

fn store_in(places: &mut [Code], code: Code)
    ensures { places.new ≡ stored same_code empty_code code places.old }
{
    let mut list = ShortList::new(places);
    let _ = list.store(code);
}

fn remove_in(places: &mut [Code], code: Code)
    ensures { places.new ≡ removed same_code empty_code code places.old }
{
    let mut list = ShortList::new(places);
    list.remove(code);
}

impl CodeList {
    /// No code yet.
    pub fn none() -> CodeList
        ensures { codes_in result ≡ [] }
    {
        CodeList {
            held: Bounded::new(Code::EMPTY),
        }
    }

    fn push(&mut self, code: Code)
        requires { length (codes_in self.old) < 80 }
        ensures codes { codes_in self.new ≡ codes_in self.old ++ code ∷ [] }
        ensures count { length (codes_in self.new) ≡ length (codes_in self.old) + 1 }
    {
        self.add(code);
    }

    /// One code more, behind the others; an eighty-first is left out.
    pub fn add(&mut self, code: Code)
        ensures { codes_in self.new ≡ (if nat_lt (length (codes_in self.old)) 80 then codes_in self.old ++ code ∷ [] else codes_in self.old) }
    {
        self.held.push(code);
    }

    /// Stores a code by the rule of the short list; a list without places stays.
    pub fn store(&mut self, code: Code)
        ensures { codes_in self.new ≡ stored same_code empty_code code (codes_in self.old) }
    {
        self.held.edit(|places| store_in(places, code));
    }

    /// Empties every place that holds the code.
    pub fn remove(&mut self, code: Code)
        ensures { codes_in self.new ≡ removed same_code empty_code code (codes_in self.old) }
    {
        self.held.edit(|places| remove_in(places, code));
    }

    /// The codes, in order.
    pub fn codes(&self) -> &[Code]
        ensures value { result.now ≡ codes_in self.now }
        ensures small { length result.now ≤ 80 }
    {
        self.held.as_slice()
    }
}

/// The code of every entry, in order, holes included.
pub fn all_codes(list: &EntryList) -> CodeList
    ensures { codes_in result ≡ codes_of (list_of list.now) }
{
    let mut codes = CodeList::none();
    for e in list.entries() {
        codes.push(e.code);
    }
    codes
}

/// The valid codes of a list, in order.
fn valid_codes(list: &EntryList) -> CodeList
    ensures { codes_in result ≡ valid_codes (list_of list.now) }
{
    let mut found = CodeList::none();
    for e in list.entries() {
        if e.code.is_valid() {
            found.push(e.code);
        }
    }
    found
}

/// The home codes: the valid codes of the home list, or the IMSI code alone where there are none.
pub fn home_codes(list: &EntryList, imsi_code: Code) -> CodeList
    ensures { codes_in result ≡ home_codes (list_of list.now) imsi_code }
{
    let mut found = valid_codes(list);
    if found.codes().is_empty() {
        found.push(imsi_code);
    }
    found
}
