use plmn::{Code, Row};
use radio::Answer;

/// A row of a table, with the answer of its network and the codes of an acceptance. Of an acceptance's codes the first ones count,
/// as many as it says and five at most; the other codes stand for nothing.
#[derive(Clone, Copy)]
pub struct TableRow {
    pub row: Row,
    pub answer: Answer,
    pub codes: [Code; 5],
}
