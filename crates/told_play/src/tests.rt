use super::{Style, play};
use scenario::read;
use std::alloc::Global;
use std::test::Fail;

fn played(heap: Global, text: &[u8], style: Style) -> Result<String, Fail> {
    let mut scenario = read(heap, text).map_err(Fail::new)?;
    Ok(play(heap, &mut scenario, style)?)
}

#[test]
fn cards_are_described(rt: HostRuntime) -> Result<(), Fail> {
    let heap = rt.alloc();
    let text = b"file 6fad 00000002\r\nfile 1234\r\ncard";
    let told =
        "card: 2 files\n  6FAD EF_AD        00 00 00 02\n  1234              -\n  IMSI code        unknown: EF_IMSI (6F07) is absent\n  registered code  unknown\n  home codes       none\n  forbidden codes  none\n  user list        none\n  operator list    none\n  needed file      EF_IMSI (6F07) is absent\n  needed file      EF_FPLMN (6F7B) is absent\n  needed file      EF_LOCI (6F7E) is absent\n";
    assert_eq!(rt; played(heap, text, Style::Words)?.as_str(), told);
    let refusal = "settings: refused 1 technologies\n";
    let text = b"supported 0000\ncard";
    assert_eq!(rt; played(heap, text, Style::Plain)?.as_str(), refusal);
    Ok(())
}

#[test]
fn turns_are_told(rt: HostRuntime) -> Result<(), Fail> {
    let heap = rt.alloc();
    let text =
        b"file 6F07 080910101032547698\nfile 6FAD 00000002\nfile 6F7B FFFFFF FFFFFF FFFFFF FFFFFF\nfile 6F7E FFFFFFFF FFFFFF FFFE FF 01\nfile 6F60 62F2208000\nsky\nrow 62F220 0 5 -60 accept\nrow 62F220 2 1 -100 cause 11\nrow 22F810 7 3 -100 silent\nrun 1\n";
    let told =
        "run 1: limited service on 262-02, UTRAN, area 1; tried 1 2\n  turn  1  place  1  262-02   UTRAN    area     1    -100 dBm  class 4, user list position 0\n           tried: rejected with cause 11, the network is forbidden\n  turn  2  place  2  228-01   E-UTRAN  area     3    -100 dBm  class 6, high quality\n           tried: silent\n  turn  3  place  0  262-02   GSM      area     5     -60 dBm  class 6, high quality\n           passed over: closed by the answer of place 1 (cause 11)\n";
    assert_eq!(rt; played(heap, text, Style::Words)?.as_str(), told);
    Ok(())
}

/// The first run fills both area lists; the second meets a row for each reason not to try one.
#[test]
fn reasons_are_told(rt: HostRuntime) -> Result<(), Fail> {
    let heap = rt.alloc();
    let text =
        b"file 6F07 080910101032547698\nfile 6FAD 00000002\nfile 6F7B 24F010 FFFFFF FFFFFF FFFFFF\nfile 6F7E FFFFFFFF FFFFFF FFFE FF 01\nsky\nrow 13F010 0 2 -70 cause 13\nrow 22F810 7 3 -100 cause 12\nsky\nrow 24F010 2 1 -60 accept\nrow 62F220 9 1 -60 accept\nrow AAF220 2 1 -60 accept\nrow 13F010 0 2 -60 accept\nrow 22F810 7 3 -60 accept\nrow 62F220 2 4 -60 accept 62F210\nrow 62F220 0 4 -60 silent\nrun 0\nrun 0\n";
    let told =
        "run 0: limited service on 228-01, E-UTRAN, area 3; tried 0 1\n  turn  1  place  0  310-01   GSM      area     2     -70 dBm  class 6, high quality\n           tried: rejected with cause 13, no roaming in this area\n  turn  2  place  1  228-01   E-UTRAN  area     3    -100 dBm  class 6, high quality\n           tried: rejected with cause 12, the area is not allowed regionally\nrun 0: registered on 262-02, UTRAN, area 4; tried 5\n  turn  1  place  3  310-01   GSM      area     2     -60 dBm  class 6, high quality\n           passed over: its area was in the roaming list\n  turn  2  place  4  228-01   E-UTRAN  area     3     -60 dBm  class 6, high quality\n           passed over: its area was in the regional list\n  turn  3  place  5  262-02   UTRAN    area     4     -60 dBm  class 6, high quality\n           tried: accepted, equivalent codes: 262-01\n  turn  4  place  6  262-02   GSM      area     4     -60 dBm  class 6, high quality\n           not reached: the run ended with the answer of place 5 (accepted)\n  no turn  place  0  420-01   UTRAN    area     1     -60 dBm\n           passed over: forbidden\n  no turn  place  1  262-02   technology 9  area     1     -60 dBm\n           passed over: technology not supported\n  no turn  place  2  AAF220 (invalid)  UTRAN    area     1     -60 dBm\n           passed over: invalid code\n";
    assert_eq!(rt; played(heap, text, Style::Words)?.as_str(), told);
    Ok(())
}

#[test]
fn calls_are_told(rt: HostRuntime) -> Result<(), Fail> {
    let heap = rt.alloc();
    let text =
        b"file 6F07 080910101032547698\nfile 6FAD 00000002\nfile 6F7B FFFFFF FFFFFF FFFFFF FFFFFF\nfile 6F7E FFFFFFFF FFFFFF FFFE FF 01\nsky\nrow 22F810 7 3 -100 cause 6\nmode\nlook\nmarks\npick 0\nmarks\nlook\nrestart\nrun 0 19\n";
    let told =
        "mode: was automatic, is manual now\nlook: 1 row heard\n  place  0  228-01   E-UTRAN  area     3    -100 dBm\nmarks: none\npick 0: the card is locked\n  place  0  228-01   E-UTRAN  area     3    -100 dBm\n    tried: rejected with cause 6, the card is locked\nmarks:\n  place  0  228-01   E-UTRAN  area     3    -100 dBm\nlook: refused (6): the card is locked\nrestart: switched off and on\nrun 0 19: refused (4): the trail has room for fewer than twenty places\n";
    assert_eq!(rt; played(heap, text, Style::Words)?.as_str(), told);
    Ok(())
}
