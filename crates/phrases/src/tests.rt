use super::{AnswerWords, RefusalWords, RowWords, StateWords};
use plmn::{Code, Row};
use radio::Answer;
use refusal::{FileFault, Refusal};
use states::{Serving, State};
use std::test::Fail;

#[test]
fn states_and_refusals_are_told(rt: HostRuntime) -> Result<(), Fail> {
    let heap = rt.alloc();
    let serving = Serving {
        code: Code::new(0x62, 0xF2, 0x20),
        technology: 2,
        area: 258,
    };
    let state = StateWords(State::Registered(serving)).to_string(heap)?;
    assert!(rt; state.as_str() == "registered on 262-02, UTRAN, area 258");
    let short = RefusalWords(Refusal::ShortTrail).to_string(heap)?;
    assert!(rt; short.as_str() == "refused (4): the trail has room for fewer than twenty places");
    let absent = RefusalWords(Refusal::NeededFile(0x6F7B, FileFault::Absent)).to_string(heap)?;
    assert!(rt; absent.as_str() == "refused (2): EF_FPLMN (6F7B) is absent");
    Ok(())
}

#[test]
fn rows_and_answers_are_told(rt: HostRuntime) -> Result<(), Fail> {
    let heap = rt.alloc();
    let row = Row {
        code: Code::new(0x00, 0x11, 0x10),
        technology: 9,
        area: 5,
        level: -60,
    };
    let found = RowWords { place: 3, row }.to_string(heap)?;
    assert!(rt; found.as_str() == "place  3  001-011  technology 9  area     5     -60 dBm");
    let codes = [Code::new(0x62, 0xF2, 0x10), Code::new(0x24, 0xF0, 0x30)];
    let accepted = AnswerWords {
        answer: Answer::Acceptance(2),
        equivalents: &codes,
    }
    .to_string(heap)?;
    assert!(rt; accepted.as_str() == "accepted, equivalent codes: 262-01, 420-03");
    let rejected = AnswerWords {
        answer: Answer::Rejection(15),
        equivalents: &codes,
    }
    .to_string(heap)?;
    assert!(rt; rejected.as_str() == "rejected with cause 15, no roaming in this area");
    Ok(())
}
