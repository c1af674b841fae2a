ghost use Rattle.std.specs.Prelude.{◌≡◌, ◌≤◌, length as size, is_some, slice_index};
ghost use Rattle.bounded.specs.Held.{held};
ghost use Rattle.card.specs.Files.{bytes_of, size_of};
ghost use Rattle.card.specs.Images.{image_of};

use super::cards::Card;
use super::image::FileImage;
use bounded::Bounded;

/// The byte of a file at a place, and 0 where there is none.
fn byte_or_zero<C: Card>(card: &mut C, file: u16, at: usize) -> u8
    ensures value { result ≡ slice_index (bytes_of (C.Card.files card.old file)) at }
    ensures same { C.Card.files card.new ≡ C.Card.files card.old }
{
    card.byte(file, at).unwrap_or(0)
}

/// Asks every byte of a file of this length once, in order.
fn take_bytes<C: Card>(card: &mut C, file: u16, length: usize) -> Bounded<u8, 240>
    requires small { length ≤ 240 }
    requires whole { length ≡ size_of (C.Card.files card.old file) }
    ensures value { held result ≡ bytes_of (C.Card.files card.old file) }
    ensures same { C.Card.files card.new ≡ C.Card.files card.old }
{
    let mut bytes = Bounded::new(0);
    for at in 0..length {
        bytes.push(byte_or_zero(card, file, at));
    }
    bytes
}

/// Takes a file whole: its length is asked once, and each of its bytes once.
pub fn take_file<C: Card>(card: &mut C, file: u16) -> FileImage
    ensures value { image_of result ≡ C.Card.files card.old file }
    ensures same { C.Card.files card.new ≡ C.Card.files card.old }
{
    // No `map` here: its closure would hold the card by `&mut`, and nothing is known of a card after that.
    let held = match card.length(file) {
        Some(length) => Some(take_bytes(card, file, length)),
        None => None,
    };
    FileImage { held }
}

impl FileImage {
    pub fn is_present(&self) -> bool
        ensures { result ≡ is_some (image_of self.now) }
    {
        self.held.is_some()
    }

    /// The file's bytes; none where it is absent.
    pub fn bytes(&self) -> &[u8]
        ensures value { result.now ≡ bytes_of (image_of self.now) }
        ensures small { size result.now ≤ 240 }
    {
        match &self.held {
            Some(bytes) => bytes.as_slice(),
            None => &[],
        }
    }
}
