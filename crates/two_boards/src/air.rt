//! What both boards hear: four skies.
use plmn::{Code, Row};
use radio::Answer;
use table_radio::TableRow;

const ABROAD: Code = Code {
    first: 0x62,
    second: 0xF2,
    third: 0x20,
};

const PARTNER: Code = Code {
    first: 0x22,
    second: 0xF8,
    third: 0x10,
};

fn heard(code: Code, technology: u8, area: u16, level: i16, answer: Answer) -> TableRow {
    TableRow {
        row: Row {
            code,
            technology,
            area,
            level,
        },
        answer,
        codes: [ABROAD; 5],
    }
}

/// Each block of twenty is a sky, which ends before the first empty code; the third is empty.
pub fn table() -> [TableRow; 61] {
    let mut t = [heard(Code::EMPTY, 0, 0, 0, Answer::Silence); 61];
    t[0] = heard(ABROAD, 0, 5, -60, Answer::Acceptance(0));
    t[1] = heard(ABROAD, 2, 1, -100, Answer::Rejection(11));
    t[2] = heard(PARTNER, 7, 3, -100, Answer::Silence);
    t[20] = heard(ABROAD, 2, 2, -120, Answer::Acceptance(0));
    t[21] = heard(ABROAD, 2, 2, -90, Answer::Rejection(13));
    t[22] = heard(PARTNER, 0, 4, -100, Answer::Rejection(11));
    t[60] = heard(PARTNER, 7, 7, -80, Answer::Acceptance(1));
    t
}
