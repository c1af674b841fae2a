ghost use Rattle.std.specs.Prelude.{◌≡◌, ◌<◌, length, Ok, OnOk};
ghost use Rattle.statements.specs.Statements.{keyword_of, call_keyword, room_at, call_by, call_sentence, entry_at, row_at, up_to_at, closed, no_codes, added, codes_from, accept_by, cause_by, answer_by, answer_at, sentence_by, sentence_of, Means};
ghost use Rattle.words.specs.Words.{past_word};
ghost use Rattle.statements.specs.declared.statement.Answer.TheVariants.{Silent};
ghost use Rattle.statements.specs.declared.statement.Keyword.TheVariants.{Supported, File, Entry as EntryWord, Row as RowWord, Run as RunWord, Pick as PickWord};

use super::arguments::{code, ended, level, number16, up_to, word};
use super::fault::Reason;
use super::statement::{Answer, Call, Codes, Keyword, SkyRow, Statement};
use packed_card::Entry;
use plmn::{Code, Row};
use words::{Words, is_text};

fn call_keyword(word: &[u8]) -> Option<Keyword>
    ensures { result ≡ call_keyword word.now }
{
    if is_text(word, b"marks") {
        Some(Keyword::Marks)
    } else if is_text(word, b"run") {
        Some(Keyword::Run)
    } else if is_text(word, b"look") {
        Some(Keyword::Look)
    } else if is_text(word, b"pick") {
        Some(Keyword::Pick)
    } else if is_text(word, b"mode") {
        Some(Keyword::Mode)
    } else if is_text(word, b"restart") {
        Some(Keyword::Restart)
    } else {
        None
    }
}

fn keyword(word: &[u8]) -> Option<Keyword>
    ensures { result ≡ keyword_of word.now }
{
    if is_text(word, b"supported") {
        Some(Keyword::Supported)
    } else if is_text(word, b"file") {
        Some(Keyword::File)
    } else if is_text(word, b"image") {
        Some(Keyword::Image)
    } else if is_text(word, b"entry") {
        Some(Keyword::Entry)
    } else if is_text(word, b"sky") {
        Some(Keyword::Sky)
    } else if is_text(word, b"row") {
        Some(Keyword::Row)
    } else if is_text(word, b"card") {
        Some(Keyword::Card)
    } else {
        call_keyword(word)
    }
}

fn read_entry(words: &mut Words) -> Result<Entry, Reason>
    ensures value { result ≡ entry_at words.old.rest.now }
    ensures after { OnOk result (words.new.rest.now ≡ past_word (past_word (past_word words.old.rest.now))) }
{
    let file = number16(words)?;
    let start = up_to(words, u64::MAX)? as usize;
    let length = up_to(words, u64::MAX)? as usize;
    Ok(Entry {
        file,
        start,
        length,
    })
}

fn read_row(words: &mut Words) -> Result<Row, Reason>
    ensures value { result ≡ row_at words.old.rest.now }
    ensures after { OnOk result (words.new.rest.now ≡ past_word (past_word (past_word (past_word words.old.rest.now)))) }
{
    let code = code(words)?;
    let technology = up_to(words, 255)? as u8;
    let area = up_to(words, 65535)? as u16;
    let level = level(words)?;
    Ok(Row {
        code,
        technology,
        area,
        level,
    })
}

/// No code yet.
fn no_codes() -> Codes
    ensures { result ≡ no_codes }
{
    Codes {
        codes: [Code::EMPTY; 5],
        count: 0,
    }
}

fn with_code(codes: Codes, code: Code) -> Codes
    requires room { codes.count < 5 }
    requires sized { length codes.codes ≡ 5 }
    ensures { result ≡ added codes code }
{
    let count = codes.count;
    let mut all = codes.codes;
    all[count] = code;
    Codes {
        codes: all,
        count: count + 1,
    }
}

/// The codes up to the line's end, of which there may be five.
fn read_codes(words: Words) -> Result<Codes, Reason>
    ensures { result ≡ codes_from 5 (Ok no_codes) words.entry.rest.now }
{
    let mut words = words;
    let mut codes = no_codes();
    for _i in 0..5usize {
        if words.is_bare() {
            return Ok(codes);
        }
        let next = code(&mut words)?;
        codes = with_code(codes, next);
    }
    if words.is_bare() {
        Ok(codes)
    } else {
        Err(Reason::TooManyCodes)
    }
}

fn read_cause(words: Words) -> Result<Answer, Reason>
    ensures { result ≡ closed (past_word words.entry.rest.now) (cause_by (up_to_at 255 words.entry.rest.now)) }
{
    let mut words = words;
    let cause = up_to(&mut words, 255)?;
    ended(words)?;
    Ok(Answer::Cause(cause as u8))
}

fn read_accept(words: Words) -> Result<Answer, Reason>
    ensures { result ≡ accept_by (codes_from 5 (Ok no_codes) words.entry.rest.now) }
{
    Ok(Answer::Accept(read_codes(words)?))
}

fn read_silent(words: Words) -> Result<Answer, Reason>
    ensures { result ≡ closed words.entry.rest.now (Ok Silent) }
{
    ended(words)?;
    Ok(Answer::Silent)
}

/// The answer with this first word.
fn answer_of(first: &[u8], words: Words) -> Result<Answer, Reason>
    ensures { result ≡ answer_by first.now words.entry.rest.now }
{
    if is_text(first, b"accept") {
        read_accept(words)
    } else if is_text(first, b"cause") {
        read_cause(words)
    } else if is_text(first, b"silent") {
        read_silent(words)
    } else {
        Err(Reason::NotAnAnswer)
    }
}

/// The answer at the end of a line.
fn read_answer(words: Words) -> Result<Answer, Reason>
    ensures { result ≡ answer_at words.entry.rest.now }
{
    let mut words = words;
    let first = word(&mut words)?;
    answer_of(first, words)
}

fn parse_supported<'a>(words: Words<'a>) -> Result<Statement<'a>, Reason>
    ensures { Means (sentence_by Supported words.entry.rest.now) result }
{
    let mut words = words;
    let set = number16(&mut words)?;
    ended(words)?;
    Ok(Statement::Supported(set))
}

fn parse_file<'a>(words: Words<'a>) -> Result<Statement<'a>, Reason>
    ensures { Means (sentence_by File words.entry.rest.now) result }
{
    let mut words = words;
    let number = number16(&mut words)?;
    Ok(Statement::File(number, words.rest()))
}

fn parse_entry<'a>(words: Words<'a>) -> Result<Statement<'a>, Reason>
    ensures { Means (sentence_by EntryWord words.entry.rest.now) result }
{
    let mut words = words;
    let entry = read_entry(&mut words)?;
    ended(words)?;
    Ok(Statement::Entry(entry))
}

fn parse_row<'a>(words: Words<'a>) -> Result<Statement<'a>, Reason>
    ensures { Means (sentence_by RowWord words.entry.rest.now) result }
{
    let mut words = words;
    let row = read_row(&mut words)?;
    let answer = read_answer(words)?;
    Ok(Statement::Row(SkyRow { row, answer }))
}

fn parse_pick<'a>(words: Words<'a>) -> Result<Statement<'a>, Reason>
    ensures { Means (sentence_by PickWord words.entry.rest.now) result }
{
    let mut words = words;
    let place = up_to(&mut words, u64::MAX)?;
    ended(words)?;
    Ok(Statement::Call(Call::Pick(place)))
}

/// The room of a trail, where it is written.
fn read_room(words: Words) -> Result<Option<u8>, Reason>
    ensures { result ≡ room_at words.entry.rest.now }
{
    let mut words = words;
    if words.is_bare() {
        return Ok(None);
    }
    let room = up_to(&mut words, 255)? as u8;
    ended(words)?;
    Ok(Some(room))
}

fn parse_run<'a>(words: Words<'a>) -> Result<Statement<'a>, Reason>
    ensures { Means (sentence_by RunWord words.entry.rest.now) result }
{
    let mut words = words;
    let draw = up_to(&mut words, u64::MAX)?;
    let room = read_room(words)?;
    Ok(Statement::Call(Call::Run(draw, room)))
}

fn parse_bare<'a>(call: Call, words: Words<'a>) -> Result<Statement<'a>, Reason>
    ensures { Means (closed words.entry.rest.now (Ok (call_sentence call))) result }
{
    ended(words)?;
    Ok(Statement::Call(call))
}

fn parse_call<'a>(keyword: Keyword, words: Words<'a>) -> Result<Statement<'a>, Reason>
    ensures { Means (call_by keyword words.entry.rest.now) result }
{
    match keyword {
        Keyword::Run => parse_run(words),
        Keyword::Pick => parse_pick(words),
        Keyword::Marks => parse_bare(Call::Marks, words),
        Keyword::Look => parse_bare(Call::Look, words),
        Keyword::Mode => parse_bare(Call::Mode, words),
        Keyword::Restart => parse_bare(Call::Restart, words),
        _ => parse_bare(Call::Card, words),
    }
}

fn parse_rest<'a>(keyword: Keyword, words: Words<'a>) -> Result<Statement<'a>, Reason>
    ensures { Means (sentence_by keyword words.entry.rest.now) result }
{
    match keyword {
        Keyword::Supported => parse_supported(words),
        Keyword::File => parse_file(words),
        Keyword::Image => Ok(Statement::Image(words.rest())),
        Keyword::Entry => parse_entry(words),
        Keyword::Sky => {
            ended(words)?;
            Ok(Statement::Sky)
        }
        Keyword::Row => parse_row(words),
        _ => parse_call(keyword, words),
    }
}

/// The statement of a line.
pub fn parse<'a>(line: &'a [u8]) -> Result<Statement<'a>, Reason>
    ensures { Means (sentence_of line.now) result }
{
    let mut words = Words::of(line);
    let first = words.next();
    if first.is_empty() {
        return Ok(Statement::Nothing);
    }
    let Some(word) = keyword(first) else {
        return Err(Reason::UnknownWord);
    };
    parse_rest(word, words)
}
