ghost use Rattle.std.specs.Prelude.{◌≡◌, true};
ghost use Rattle.bounded.specs.Held.{held};
ghost use Rattle.packed_card.specs.Directories.{sound};

use super::entry::Entry;
use bounded::Bounded;

/// The good entries of a directory, in their order: none of them clashes with another.
#[derive(Clone, Copy)]
pub struct GoodEntries {
    pub(crate) entries: Bounded<Entry, 12>,
    ghost apart: { sound (held entries) ≡ true },
}
