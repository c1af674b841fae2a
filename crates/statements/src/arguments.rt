ghost use Rattle.std.specs.Prelude.{◌≡◌, ◌≤◌, true, false, IfOk, MatchResult};
ghost use Rattle.statements.specs.Arguments.{asked, end_answer};
ghost use Rattle.words.specs.Digits.{four_value, six_value, number_up_to, level_value};
ghost use Rattle.words.specs.Words.{word_of, past_word, bare};
ghost use Rattle.statements.specs.declared.fault.Reason.TheVariants.{MissingWord, NotFourDigits, NotSixDigits, NotUpTo, NotALevel};

use super::fault::Reason;
use plmn::Code;
use words::{Words, decimal, four_digits, signed_level, six_digits};

/// The next word; refused where there is none.
pub fn word<'a>(words: &mut Words<'a>) -> Result<&'a [u8], Reason>
    ensures value { MatchResult result (λ w. (bare words.old.rest.now ≡ false) × (w.now ≡ word_of words.old.rest.now)) (λ e. (bare words.old.rest.now ≡ true) × (e ≡ MissingWord)) }
    ensures after { words.new.rest.now ≡ past_word words.old.rest.now }
{
    let found = words.next();
    if found.is_empty() {
        Err(Reason::MissingWord)
    } else {
        Ok(found)
    }
}

/// A number of four hexadecimal digits.
pub fn number16(words: &mut Words) -> Result<u16, Reason>
    ensures value { result ≡ asked NotFourDigits four_value words.old.rest.now }
    ensures after { words.new.rest.now ≡ past_word words.old.rest.now }
{
    four_digits(word(words)?).ok_or(Reason::NotFourDigits)
}

/// A network code.
pub fn code(words: &mut Words) -> Result<Code, Reason>
    ensures value { result ≡ asked NotSixDigits six_value words.old.rest.now }
    ensures after { words.new.rest.now ≡ past_word words.old.rest.now }
{
    six_digits(word(words)?).ok_or(Reason::NotSixDigits)
}

/// A decimal number of at most `most`.
pub fn up_to(words: &mut Words, most: u64) -> Result<u64, Reason>
    ensures value { result ≡ asked (NotUpTo most) (number_up_to most) words.old.rest.now }
    ensures small { IfOk result (λ n. n ≤ most) }
    ensures after { words.new.rest.now ≡ past_word words.old.rest.now }
{
    decimal(word(words)?, most).ok_or(Reason::NotUpTo(most))
}

/// A level in dBm.
pub fn level(words: &mut Words) -> Result<i16, Reason>
    ensures value { result ≡ asked NotALevel level_value words.old.rest.now }
    ensures after { words.new.rest.now ≡ past_word words.old.rest.now }
{
    signed_level(word(words)?).ok_or(Reason::NotALevel)
}

/// No further word.
pub fn ended(words: Words) -> Result<(), Reason>
    ensures { result ≡ end_answer words.entry.rest.now }
{
    if words.is_bare() {
        Ok(())
    } else {
        Err(Reason::ExtraWord)
    }
}
