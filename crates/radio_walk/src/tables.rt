//! The tables that are walked.
use plmn::{Code, Row};
use radio::Answer;
use table_radio::TableRow;

/// A row of the network `number`, whose acceptance has codes that begin with `codes`, `codes` + 1 and so on.
pub fn table_row(number: u8, technology: u8, answer: Answer, codes: u8) -> TableRow {
    TableRow {
        row: Row {
            code: Code::new(number, 0xF0, 0x10),
            technology,
            area: 1000 + u16::from(number),
            level: -50 - i16::from(number),
        },
        answer,
        codes: [
            Code::new(codes, 0xF0, 0x20),
            Code::new(codes.wrapping_add(1), 0xF0, 0x20),
            Code::new(codes.wrapping_add(2), 0xF0, 0x20),
            Code::new(codes.wrapping_add(3), 0xF0, 0x20),
            Code::new(codes.wrapping_add(4), 0xF0, 0x20),
        ],
    }
}

/// A row with the empty code.
fn end() -> TableRow {
    TableRow {
        row: Row {
            code: Code::EMPTY,
            technology: 0,
            area: 0,
            level: 0,
        },
        answer: Answer::Silence,
        codes: [Code::EMPTY; 5],
    }
}

/// Two skies. The first ends at an empty code after four rows; the second is the shorter last block.
pub fn home_table() -> [TableRow; 23] {
    let mut t = [table_row(99, 0, Answer::Acceptance(1), 0); 23];
    t[0] = table_row(1, 0, Answer::Silence, 0);
    t[1] = table_row(2, 7, Answer::Acceptance(1), 0);
    t[2] = table_row(3, 2, Answer::Acceptance(2), 0xA1);
    t[3] = table_row(4, 3, Answer::Rejection(3), 0);
    t[4] = end();
    t[20] = table_row(21, 2, Answer::Acceptance(1), 0xC1);
    t[21] = table_row(22, 7, Answer::Silence, 0);
    t[22] = table_row(23, 0, Answer::Acceptance(1), 0xD1);
    t
}

/// One sky of three rows. An acceptance that says nine codes has five.
pub fn guest_table() -> [TableRow; 3] {
    [
        table_row(31, 7, Answer::Acceptance(9), 0xB1),
        table_row(32, 0, Answer::Rejection(11), 0xE1),
        table_row(33, 2, Answer::Silence, 0),
    ]
}

/// Twenty-five rows: fifteen that stay silent, and ten that accept.
pub fn long_block() -> [TableRow; 25] {
    let mut t = [table_row(40, 0, Answer::Silence, 0); 25];
    // a loop: beside `iter_mut` the bound of n did not prove
    for i in 0..25 {
        let n = i as u8;
        let answer = if n < 15 {
            Answer::Silence
        } else {
            Answer::Acceptance(1)
        };
        t[i] = table_row(40 + n, 0, answer, 160 + n);
    }
    t
}
