use super::{Board, rows_now, table_of};
use card::BareCard;
use packed_card::PackedCard;
use plain::carry_out;
use plmn::{Settings, TechnologySet};
use radio::Registrar;
use scenario::read;
use selector::Off;
use statements::Call;
use std::test::Fail;
use table_radio::TableRadio;

#[test]
fn a_board_hears_and_prints(rt: HostRuntime) -> Result<(), Fail> {
    let heap = rt.alloc();
    let text = b"file 6F07 01\nsky\nrow 62F220 0 5 -60 accept\nrow 22F810 7 3 -100 silent\nmarks\n";
    let mut scenario = read(heap, text).map_err(Fail::new)?;
    let supported = TechnologySet {
        bits: scenario.supported,
    };
    let Ok(settings) = Settings::check(supported) else {
        return Err(Fail::new("refused settings"));
    };
    let table = table_of(heap, &scenario)?;
    let mut board = Board {
        radio: TableRadio::new(table.as_slice()),
        card: PackedCard::new(scenario.image.as_mut_slice(), scenario.directory.as_slice()),
        supported,
    };
    board.radio.seek();
    assert_eq!(rt; rows_now(heap, &mut board.radio)?.len(), 2);
    let mut out = String::new(heap);
    board.print_calls(heap, &mut out, settings, scenario.calls.as_slice())?;
    assert_eq!(rt; out.as_str(), "marks: none\n");
    Ok(())
}

#[test]
fn calls_are_carried_out_in_place(rt: HostRuntime) -> Result<(), Fail> {
    let Ok(settings) = Settings::check(TechnologySet { bits: 0xC080 }) else {
        return Err(Fail::new("refused settings"));
    };
    let mut on = Off::new(settings).switch_on();
    let mut radio = TableRadio::new(&[]);
    let mut card = BareCard::new([0; 9], [0; 4], [0xFF; 12], [0xFF; 11]);
    let mut out = String::new(rt.alloc());
    for call in [Call::Mode, Call::Look, Call::Restart, Call::Mode] {
        carry_out(&mut out, &mut on, &mut radio, &mut card, &[], call)?;
    }
    assert_eq!(rt;
        out.as_str(),
        "mode: was automatic\nlook: 0 rows\nrestart: on\nmode: was manual\n"
    );
    Ok(())
}
