use super::listed::Listed;
use bounded::Bounded;

/// A list as it was read from a file: every whole entry in order, holes included. A file has at most 240 bytes, and an entry
/// at least three, so eighty places are enough.
#[derive(Clone, Copy)]
pub struct EntryList {
    pub(crate) held: Bounded<Listed, 80>,
}
