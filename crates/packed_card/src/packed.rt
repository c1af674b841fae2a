ghost use Rattle.std.specs.Prelude.{◌≡◌, ◌+◌, ◌≤◌, length as size, IfSome};
ghost use Rattle.card.specs.Files.{length_of, size_of, byte_of, update_answer, written};
ghost use Rattle.packed_card.specs.Directories.{goods as goodsOf, found as foundIn, file_at};
ghost use Rattle.packed_card.specs.Packed.{listed as listedIn, kept as keptIn, packed_files, files_in};
ghost use Rattle.packed_card.specs.Small.{packed_small};

use super::building::good_entries;
use super::entry::Entry;
use super::good::GoodEntries;
use card::{Card, read_in, write_in};
use refusal::Refusal;

fn find(good: &[Entry], file: u16) -> Option<Entry>
    ensures { result ≡ foundIn file good.now }
{
    good.iter().copied().find(|e| e.file == file)
}

/// The entry of a file, where the image has it.
fn lookup(good: &GoodEntries, size: usize, file: u16) -> Option<Entry>
    ensures value { result ≡ keptIn size (foundIn file (listedIn good.now)) }
    ensures within { IfSome result (λ e. e.start + e.length ≤ size) }
{
    let e = find(good.entries.as_slice(), file)?;
    if e.start <= size && e.length <= size - e.start {
        Some(e)
    } else {
        None
    }
}

/// The number of the entry at a place.
fn number_at(good: &[Entry], place: usize) -> Option<u16>
    ensures { result ≡ file_at place good.now }
{
    good.get(place).map(|e| e.file)
}

fn length_in(image: &[u8], good: &GoodEntries, file: u16) -> Option<usize>
    ensures value { result ≡ length_of (files_in image.now (listedIn good.now) file) }
    ensures small { size_of (files_in image.now (listedIn good.now) file) ≤ 240 }
{
    lookup(good, image.len(), file).map(|e| e.length)
}

fn byte_in(image: &[u8], good: &GoodEntries, file: u16, at: usize) -> Result<u8, Refusal>
    ensures { result ≡ byte_of (files_in image.now (listedIn good.now) file) at }
{
    let e = lookup(good, image.len(), file).ok_or(Refusal::NoFile)?;
    read_in(&image[e.start..e.start + e.length], at)
}

fn update_in(
    image: &mut [u8],
    good: &GoodEntries,
    file: u16,
    start: usize,
    bytes: &[u8],
) -> Result<(), Refusal>
    ensures answer { result ≡ update_answer start bytes.now (files_in image.old (listedIn good.now) file) }
    ensures after { files_in image.new (listedIn good.now) ≡ written file start bytes.now (files_in image.old (listedIn good.now)) }
{
    let Some(e) = lookup(good, image.len(), file) else {
        return Err(Refusal::NoFile);
    };
    write_in(&mut image[e.start..e.start + e.length], start, bytes)
}

/// The good entries of a directory over this image.
fn judged(image: &[u8], directory: &[Entry]) -> GoodEntries
    ensures listed { listedIn result ≡ goodsOf (size image.now) directory.now }
    ensures files { files_in image.now (listedIn result) ≡ packed_files image.now directory.now }
{
    good_entries(directory, image.len())
}

/// A card over an image that the caller lends. The directory is judged once, when the card is made.
#[derive(Drop)]
pub struct PackedCard<'a> {
    image: &'a mut [u8],
    good: GoodEntries,
}

impl<'a> PackedCard<'a> {
    /// The card with exactly the good files of this directory. Any directory does: what is not good is no file.
    pub fn new(image: &'a mut [u8], directory: &[Entry]) -> PackedCard<'a>
        ensures files { files_in result.image.now (listedIn result.good) ≡ packed_files image.old directory.now }
        ensures listed { listedIn result.good ≡ goodsOf (size image.old) directory.now }
        ensures image { result.image.now ≡ image.old }
        ensures lent { result.image.ghost_name ≡ image.entry.ghost_name }
    {
        let good = judged(image, directory);
        PackedCard { image, good }
    }

    /// The number of the file at a place among the card's files, in the order of the directory; none past the last.
    pub fn file_at(&self, place: usize) -> Option<u16>
        ensures { result ≡ file_at place (listedIn self.now.good) }
    {
        number_at(self.good.entries.as_slice(), place)
    }

    fn length_of(&self, file: u16) -> Option<usize>
        ensures value { result ≡ length_of (files_in self.now.image.now (listedIn self.now.good) file) }
        ensures small { size_of (files_in self.now.image.now (listedIn self.now.good) file) ≤ 240 }
    {
        length_in(self.image, &self.good, file)
    }

    fn byte_of(&self, file: u16, at: usize) -> Result<u8, Refusal>
        ensures { result ≡ byte_of (files_in self.now.image.now (listedIn self.now.good) file) at }
    {
        byte_in(self.image, &self.good, file, at)
    }
}

impl<'a> Card for PackedCard<'a> {
    ghost files = { λ s. files_in s.image.now (listedIn s.good) };

    ghost small = { λ s n. packed_small s.image.now (listedIn s.good) s.good.apart n };

    fn length(&mut self, file: u16) -> Option<usize> {
        self.length_of(file)
    }

    fn byte(&mut self, file: u16, at: usize) -> Result<u8, Refusal> {
        self.byte_of(file, at)
    }

    fn update(&mut self, file: u16, start: usize, bytes: &[u8]) -> Result<(), Refusal> {
        let good = self.good;
        update_in(self.image, &good, file, start, bytes)
    }
}
