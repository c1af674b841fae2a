use super::{Style, play};
use scenario::read;
use std::alloc::Global;
use std::test::Fail;

fn played(heap: Global, text: &[u8], style: Style) -> Result<String, Fail> {
    let mut scenario = read(heap, text).map_err(Fail::new)?;
    Ok(play(heap, &mut scenario, style)?)
}

#[test]
fn cards_are_described(rt: HostRuntime) -> Result<(), Fail> {
    let heap = rt.alloc();
    let text = b"file 6fad 00000002\r\nfile 1234\r\ncard";
    let told =
        "card: 2 files\n6FAD EF_AD        00 00 00 02\n1234              -\n  IMSI code        unknown: EF_IMSI (6F07) is absent\n  registered code  unknown\n  home codes       none\n  forbidden codes  none\n  user list        none\n  operator list    none\n  needed file      EF_IMSI (6F07) is absent\n  needed file      EF_FPLMN (6F7B) is absent\n  needed file      EF_LOCI (6F7E) is absent\n";
    assert_eq!(rt; played(heap, text, Style::Words)?.as_str(), told);
    let refusal = "settings: refused 1 technologies\n";
    let text = b"supported 0000\ncard";
    assert_eq!(rt; played(heap, text, Style::Plain)?.as_str(), refusal);
    Ok(())
}

#[test]
fn orders_are_described(rt: HostRuntime) -> Result<(), Fail> {
    let heap = rt.alloc();
    let text =
        b"file 6F07 080910101032547698\nfile 6FAD 00000002\nfile 6F7B FFFFFF FFFFFF FFFFFF FFFFFF\nfile 6F7E FFFFFFFF FFFFFF FFFE FF 01\nfile 6F60 62F2208000\nsky\nrow 62F220 0 5 -60 accept\nrow 62F220 2 1 -100 cause 11\nrow 22F810 7 3 -100 silent\nrun 1\n";
    let told =
        "run 1: 2 limited 62F220 2 1; tried 1 2\n   0  262-02   GSM      area     5     -60 dBm  class 6, high quality, turn 3\n   1  262-02   UTRAN    area     1    -100 dBm  class 4, user list position 0, turn 1\n   2  228-01   E-UTRAN  area     3    -100 dBm  class 6, high quality, turn 2\n";
    assert_eq!(rt; played(heap, text, Style::Words)?.as_str(), told);
    Ok(())
}
