ghost use Rattle.std.specs.Prelude.{◌≡◌, Some, None, MatchResult};
ghost use Rattle.card.specs.Images.{image_of};
ghost use Rattle.subscriber.specs.Needed.{fault_of, refusal_for};

use card::{Card, FileImage, take_file};
use refusal::{FileFault, Refusal};

/// What is wrong with a file that has to have this least length.
pub fn file_fault(file: &FileImage, least: usize) -> Option<FileFault>
    ensures { result ≡ fault_of least (image_of file.now) }
{
    if !file.is_present() {
        Some(FileFault::Absent)
    } else if file.bytes().len() < least {
        Some(FileFault::Short)
    } else {
        None
    }
}

/// Takes a needed file, or says what is wrong with it.
pub(crate) fn take_needed<C: Card>(
    card: &mut C,
    file: u16,
    least: usize,
) -> Result<FileImage, Refusal>
    ensures answer { MatchResult result (λ image. (refusal_for file least (C.Card.files card.old) ≡ None) × (image_of image ≡ C.Card.files card.old file)) (λ e. refusal_for file least (C.Card.files card.old) ≡ Some e) }
    ensures same { C.Card.files card.new ≡ C.Card.files card.old }
{
    let image = take_file(card, file);
    match file_fault(&image, least) {
        Some(fault) => Err(Refusal::NeededFile(file, fault)),
        None => Ok(image),
    }
}
