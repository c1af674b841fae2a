use bounded::Bounded;
use plmn::Code;

/// Up to eighty codes, in order: as many as a file can hold.
#[derive(Clone, Copy)]
pub struct CodeList {
    pub(crate) held: Bounded<Code, 80>,
}
