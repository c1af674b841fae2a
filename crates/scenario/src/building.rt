ghost use Rattle.std.specs.Prelude.{◌≡◌, ◌≤◌, false, [], ◌∷◌, ◌++◌, length, Ok, Err, vec_len, MatchResult, OnOk};
ghost use Rattle.scenario.specs.Boards.{board_of, empty_board, with_entry, with_sky, with_call, image_by, file_in, row_in, put as putOn, of_board, extended};
ghost use Rattle.scenario.specs.Bytes.{begun, paired, pairs_from, with_bytes};
ghost use Rattle.scenario.specs.Outcomes.{memory_failed, Due};
ghost use Rattle.statements.specs.Statements.{meant};
ghost use Rattle.statements.specs.declared.fault.Reason.TheVariants.{NoMemory};

use super::scenarios::Scenario;
use packed_card::Entry;
use statements::{Call, Reason, SkyRow, Statement};
use std::alloc::Global;
use words::{Run, front, hex_pair, is_white};

/// One more byte of text behind `waiting`, the first digit of a pair whose second is still to come.
fn append_digit(image: &mut Vec<u8>, waiting: Option<u8>, byte: u8) -> Result<Option<u8>, Reason>
    ensures after { MatchResult result (λ w. paired image.old.items waiting byte ≡ Ok (record { bytes = image.new.items; waiting = w })) (λ e. memory_failed e ≡ false → paired image.old.items waiting byte ≡ Err e) }
    ensures grown { OnOk result (vec_len image.old ≤ vec_len image.new) }
{
    let Some(high) = waiting else {
        return Ok(if is_white(byte) { None } else { Some(byte) });
    };
    image.push(hex_pair(high, byte).ok_or(Reason::NotAByte)?)?;
    Ok(None)
}

/// The bytes that a text of pairs writes, behind those of the image.
fn append_pairs(image: &mut Vec<u8>, text: &[u8]) -> Result<(), Reason>
    ensures after { Due (pairs_from (Ok (begun image.old.items)) text.now) result image.new.items }
    ensures grown { OnOk result (vec_len image.old ≤ vec_len image.new) }
{
    let mut waiting = None;
    for byte in text {
        waiting = append_digit(image, waiting, *byte)?;
    }
    if waiting.is_some() {
        return Err(Reason::NotAByte);
    }
    Ok(())
}

/// The bytes that a line writes, behind those of the image.
fn append_bytes(image: &mut Vec<u8>, line: &[u8]) -> Result<(), Reason>
    ensures after { Due (with_bytes image.old.items line.now) result image.new.items }
    ensures grown { OnOk result (vec_len image.old ≤ vec_len image.new) }
{
    let end = front(line, Run::Uncommented);
    append_pairs(image, &line[0..end])
}

/// Whether a statement describes the board, and is not a call.
fn is_of_board(statement: Statement) -> bool
    ensures { result ≡ of_board (meant statement.entry) }
{
    !matches!(statement, Statement::Nothing | Statement::Call(_))
}

impl Scenario {
    /// The scenario of an empty text: all three technologies, and no card, sky or call.
    pub fn empty(heap: Global) -> Scenario
        ensures { board_of result ≡ empty_board }
    {
        Scenario {
            supported: 0xC080,
            image: Vec::new(heap),
            directory: Vec::new(heap),
            skies: Vec::new(heap),
            rows: Vec::new(heap),
            calls: Vec::new(heap),
        }
    }

    fn add_image(&mut self, line: &[u8]) -> Result<(), Reason>
        ensures { Due (image_by (board_of self.old) (with_bytes self.old.image.items line.now)) result (board_of self.new) }
    {
        append_bytes(&mut self.image, line)
    }

    fn add_entry(&mut self, entry: Entry) -> Result<(), Reason>
        ensures { Due (Ok (with_entry (board_of self.old) entry)) result (board_of self.new) }
    {
        self.directory.push(entry)?;
        Ok(())
    }

    fn add_file(&mut self, number: u16, line: &[u8]) -> Result<(), Reason>
        ensures { Due (file_in (board_of self.old) number (with_bytes self.old.image.items line.now)) result (board_of self.new) }
    {
        let start = self.image.len();
        append_bytes(&mut self.image, line)?;
        let end = self.image.len();
        self.add_entry(Entry {
            file: number,
            start,
            length: end - start,
        })
    }

    fn add_sky(&mut self) -> Result<(), Reason>
        ensures { Due (Ok (with_sky (board_of self.old))) result (board_of self.new) }
    {
        let before = self.rows.len();
        self.skies.push(before)?;
        Ok(())
    }

    fn add_row(&mut self, row: SkyRow) -> Result<(), Reason>
        ensures { Due (row_in (board_of self.old) row) result (board_of self.new) }
    {
        if self.skies.is_empty() {
            return Err(Reason::RowBeforeSky);
        }
        self.rows.push(row)?;
        Ok(())
    }

    fn add_call(&mut self, call: Call) -> Result<(), Reason>
        ensures { Due (Ok (with_call (board_of self.old) call)) result (board_of self.new) }
    {
        self.calls.push(call)?;
        Ok(())
    }

    fn put(&mut self, statement: Statement) -> Result<(), Reason>
        ensures { Due (putOn (board_of self.old) (meant statement.entry)) result (board_of self.new) }
    {
        match statement {
            Statement::Nothing => Ok(()),
            Statement::Supported(set) => {
                self.supported = set;
                Ok(())
            }
            Statement::File(number, line) => self.add_file(number, line),
            Statement::Image(line) => self.add_image(line),
            Statement::Entry(entry) => self.add_entry(entry),
            Statement::Sky => self.add_sky(),
            Statement::Row(row) => self.add_row(row),
            Statement::Call(call) => self.add_call(call),
        }
    }

    /// The scenario with one more statement; one of the board stands before the first call.
    pub fn add(&mut self, statement: Statement) -> Result<(), Reason>
        ensures { Due (extended (board_of self.old) (meant statement.entry)) result (board_of self.new) }
    {
        if is_of_board(statement) && !self.calls.is_empty() {
            return Err(Reason::BoardAfterCall);
        }
        self.put(statement)
    }
}
