ghost use Rattle.std.specs.Prelude.{◌≡◌, ◌+◌, ◌<◌, ◌≤◌, true, false, [], ◌∷◌, ◌++◌, length, take};
ghost use Rattle.packed_card.specs.Directories.{fits as fitting, overlap as overlapping, clash as clashing, clashes as clashesWith, admitted, goods as goodsOf};
ghost use Rattle.packed_card.specs.Packed.{listed as listedIn};

use super::entry::Entry;
use super::good::GoodEntries;
use bounded::Bounded;

/// Whether the entry's stretch lies in an image of this size and has at most 240 bytes.
fn fits(e: Entry, size: usize) -> bool
    ensures { result ≡ fitting size e }
{
    e.start <= size && e.length <= size - e.start && e.length <= 240
}

/// Whether some byte of the image lies in both stretches.
fn overlap(e: Entry, f: Entry) -> bool
    ensures { result ≡ overlapping e f }
{
    if e.start <= f.start {
        f.start - e.start < e.length && f.length > 0
    } else {
        e.start - f.start < f.length && e.length > 0
    }
}

fn clash(e: Entry, f: Entry) -> bool
    ensures { result ≡ clashing e f }
{
    e.file == f.file || overlap(e, f)
}

fn clashes(e: Entry, good: &[Entry]) -> bool
    ensures { result ≡ clashesWith e good.now }
{
    good.iter().any(|f| clash(e, *f))
}

impl GoodEntries {
    fn none() -> GoodEntries
        ensures { listedIn result ≡ [] }
    {
        let unused = Entry {
            file: 0,
            start: 0,
            length: 0,
        };
        GoodEntries {
            entries: Bounded::new(unused),
        }
    }

    /// One more good entry, behind the others.
    fn push(&mut self, e: Entry, size: usize)
        requires room { length (listedIn self.old) < 12 }
        requires fits { fitting size e ≡ true }
        requires apart { clashesWith e (listedIn self.old) ≡ false }
        ensures listed { listedIn self.new ≡ listedIn self.old ++ e ∷ [] }
        ensures count { length (listedIn self.new) ≡ length (listedIn self.old) + 1 }
    {
        let mut entries = self.entries;
        entries.push(e);
        self.entries = entries;
    }

    /// Takes a further entry, unless it does not fit or clashes with an earlier good one.
    fn admit(&mut self, e: Entry, size: usize)
        requires { length (listedIn self.old) < 12 }
        ensures listed { listedIn self.new ≡ admitted size (listedIn self.old) e }
        ensures count { length (listedIn self.new) ≤ length (listedIn self.old) + 1 }
    {
        if fits(e, size) && !clashes(e, self.entries.as_slice()) {
            self.push(e, size);
        }
    }
}

/// The entries of a directory that count.
fn first_twelve(directory: &[Entry]) -> &[Entry]
    ensures value { result.now ≡ take 12 directory.now }
    ensures small { length result.now ≤ 12 }
{
    &directory[..directory.len().min(12)]
}

/// The good ones of a directory's first twelve entries, over an image of this size.
pub fn good_entries(directory: &[Entry], size: usize) -> GoodEntries
    ensures { listedIn result ≡ goodsOf size directory.now }
{
    let mut good = GoodEntries::none();
    for e in first_twelve(directory) {
        good.admit(*e, size);
    }
    good
}
