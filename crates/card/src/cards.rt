ghost use Rattle.std.specs.Prelude.{◌≡◌, ℕ, ◌≤◌};
ghost use Rattle.card.specs.Files.{Files, length_of, byte_of, size_of, update_answer, written};

use refusal::Refusal;

/// A card means its files: each 16-bit number is absent or has up to 240 bytes. A question may use the device, so it takes
/// `&mut self`, but leaves the files as they are.
pub trait Card {
    ghost files: { Self → Files };

    // No file has more than 240 bytes.
    ghost small: { (s : Self) (n : ℕ) → size_of (files s n) ≤ 240 };

    /// How many bytes a file has, or none where it is absent.
    fn length(&mut self, file: u16) -> Option<usize>
        ensures value { result ≡ length_of (files self.old file) }
        ensures small { size_of (files self.old file) ≤ 240 }
        ensures same { files self.new ≡ files self.old };

    /// One byte of a file, counted from 0.
    fn byte(&mut self, file: u16, at: usize) -> Result<u8, Refusal>
        ensures value { result ≡ byte_of (files self.old file) at }
        ensures same { files self.new ≡ files self.old };

    /// Writes one stretch of one file, and nothing else.
    fn update(&mut self, file: u16, start: usize, bytes: &[u8]) -> Result<(), Refusal>
        ensures answer { result ≡ update_answer start bytes.now (files self.old file) }
        ensures after { files self.new ≡ written file start bytes.now (files self.old) };
}
