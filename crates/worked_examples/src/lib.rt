//! The worked examples of the rules: proved from the definitions as one fact, and run as tests on the program.

#![tactic(auto)]

ghost use Rattle.worked_examples.specs.Examples.{Examples};

/// The worked examples follow from the definitions.
pub fn examples_hold()
    ensures { Examples }
{}

#[cfg(test)]
mod tests {
    use plmn::{Code, Digits};
    use short_list::ShortList;
    use subscriber::imsi_code;

    const A: Code = Code {
        first: 0x00,
        second: 0xF1,
        third: 0x10,
    };

    const B: Code = Code {
        first: 0x62,
        second: 0xF2,
        third: 0x20,
    };

    const C: Code = Code {
        first: 0x22,
        second: 0xF8,
        third: 0x10,
    };

    const D: Code = Code {
        first: 0x00,
        second: 0x11,
        third: 0x10,
    };

    const E: Code = Code {
        first: 0x02,
        second: 0xF8,
        third: 0x01,
    };

    const IMSI: [u8; 9] = [0x08, 0x09, 0x10, 0x10, 0x10, 0x32, 0x54, 0x76, 0x98];

    fn code(mcc: [u8; 3], mnc: [u8; 3]) -> Code {
        Code::from(Digits {
            mcc1: mcc[0],
            mcc2: mcc[1],
            mcc3: mcc[2],
            mnc1: mnc[0],
            mnc2: mnc[1],
            mnc3: mnc[2],
        })
    }

    #[test]
    fn codes_have_their_bytes(rt: HostRuntime) {
        assert!(rt; code([0, 0, 1], [0, 1, 15]) == A);
        assert!(rt; code([0, 0, 1], [0, 1, 1]) == D);
        assert!(rt; code([2, 6, 2], [0, 2, 15]) == B);
        assert!(rt; A.is_valid() && B.is_valid() && D.is_valid());
        assert!(rt; !Code::EMPTY.is_valid());
    }

    #[test]
    fn imsi_gives_its_code(rt: HostRuntime) {
        let other = Code::new(0x00, 0x01, 0x10);
        assert!(rt; imsi_code(&IMSI, &[0, 0, 0, 2]).is_ok_and(|code| code == A));
        assert!(rt; imsi_code(&IMSI, &[0, 0, 0, 3]).is_ok_and(|code| code == other));
        let refused = imsi_code(&IMSI, &[0, 0, 0, 4]).err();
        assert_eq!(rt; refused.map(u8::from), Some(3));
    }

    #[test]
    fn full_list_loses_its_first(rt: HostRuntime) {
        let mut places = [A, B, C, D];
        let _ = ShortList::new(&mut places).store(E);
        assert!(rt; places[0] == B && places[1] == C);
        assert!(rt; places[2] == D && places[3] == E);
    }

    #[test]
    fn first_empty_place_is_taken(rt: HostRuntime) {
        let mut places = [A, Code::EMPTY, C, D];
        let _ = ShortList::new(&mut places).store(E);
        assert!(rt; places[0] == A && places[1] == E);
        assert!(rt; places[2] == C && places[3] == D);
    }

    #[test]
    fn no_place_refuses(rt: HostRuntime) {
        let mut places: [Code; 0] = [];
        let refused = ShortList::new(&mut places).store(E).err();
        assert_eq!(rt; refused.map(u8::from), Some(9));
    }
}
