use bounded::Bounded;

/// A file as it was taken from a card: absent, or its bytes, held by the selector itself.
#[derive(Clone, Copy)]
pub struct FileImage {
    pub(crate) held: Option<Bounded<u8, 240>>,
}
