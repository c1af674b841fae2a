ghost use Rattle.std.specs.Prelude.{◌≡◌, ◌+◌, nat_le, slice_index};
ghost use Rattle.card.specs.Files.{read_in, patched, patch_answer};

use refusal::Refusal;

/// The byte at a place of a file's bytes.
pub fn read_in(target: &[u8], at: usize) -> Result<u8, Refusal>
    ensures { result ≡ read_in target.now at }
{
    target.get(at).copied().ok_or(Refusal::OutsideFile)
}

/// The byte at a place, and 0 where there is none.
pub fn byte_at(bytes: &[u8], at: usize) -> u8
    ensures { result ≡ slice_index bytes.now at }
{
    bytes.get(at).copied().unwrap_or(0)
}

/// Whether a stretch of n bytes lies in a file of this size; an empty one at its end does.
fn is_inside(size: usize, start: usize, n: usize) -> bool
    ensures { result ≡ nat_le (start + n) size }
{
    start <= size && n <= size - start
}

/// Writes a stretch of a file's bytes, or refuses where it leaves them.
pub fn write_in(target: &mut [u8], start: usize, bytes: &[u8]) -> Result<(), Refusal>
    ensures answer { result ≡ patch_answer start bytes.now target.old }
    ensures after { target.new ≡ patched start bytes.now target.old }
{
    let n = bytes.len();
    if !is_inside(target.len(), start, n) {
        return Err(Refusal::OutsideFile);
    }
    let part = &mut target[start..start + n];
    part.copy_from_slice(bytes);
    Ok(())
}
