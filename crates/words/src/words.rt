ghost use Rattle.std.specs.Prelude.{◌≡◌};
ghost use Rattle.std.specs.Str.{bytes_eq};
ghost use Rattle.words.specs.Words.{word_of, past_word, bare};

use super::runs::{Run, front};

/// What is left of a line, word by word. Words are parted by spaces and tabs, and `#` ends them all.
#[derive(Clone, Copy)]
pub struct Words<'a> {
    rest: &'a [u8],
}

/// Whether a word is this text.
pub fn is_text(word: &[u8], text: &[u8]) -> bool
    ensures { result ≡ bytes_eq word.now text.now }
{
    word == text
}

impl<'a> Words<'a> {
    pub fn of(line: &'a [u8]) -> Words<'a>
        ensures { result.rest.now ≡ line.now }
    {
        Words { rest: line }
    }

    /// The next word, which is empty where there is none.
    pub fn next(&mut self) -> &'a [u8]
        ensures value { result.now ≡ word_of self.old.rest.now }
        ensures after { self.new.rest.now ≡ past_word self.old.rest.now }
    {
        let line = self.rest;
        let gap = front(line, Run::White);
        let line = &line[gap..];
        let length = front(line, Run::Word);
        self.rest = &line[length..];
        &line[0..length]
    }

    /// The line behind the words that were taken.
    pub fn rest(&self) -> &'a [u8]
        ensures { result.now ≡ self.now.rest.now }
    {
        self.rest
    }

    /// Whether no further word is there.
    pub fn is_bare(self) -> bool
        ensures { result ≡ bare self.entry.rest.now }
    {
        let mut words = self;
        words.next().is_empty()
    }
}
