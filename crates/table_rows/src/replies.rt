ghost use Rattle.std.specs.Prelude.{◌≡◌, ◌≤◌, slice_index_or};
ghost use Rattle.plmn.specs.Codes.{empty_code};
ghost use Rattle.radio.specs.Airs.{answer_of, codes_in, code_count};
ghost use Rattle.table_rows.specs.Tables.{offer_of};

use super::row::TableRow;
use plmn::Code;
use radio::Answer;

/// The answer of a row's network: an acceptance has five codes at most.
pub fn answer_of(entry: TableRow) -> Answer
    ensures value { result ≡ answer_of (offer_of entry).reply }
    ensures small { code_count result ≤ 5 }
{
    match entry.answer {
        Answer::Acceptance(n) => Answer::Acceptance(n.min(5)),
        other => other,
    }
}

/// The code at an index of a row's acceptance, or the empty code.
pub fn code_of(entry: TableRow, index: usize) -> Code
    ensures { result ≡ slice_index_or (codes_in (offer_of entry).reply) index empty_code }
{
    match entry.answer {
        Answer::Acceptance(n) => {
            let codes = &entry.codes[..n.min(5) as usize];
            codes.get(index).copied().unwrap_or(Code::EMPTY)
        }
        Answer::Rejection(_) | Answer::Silence => Code::EMPTY,
    }
}
