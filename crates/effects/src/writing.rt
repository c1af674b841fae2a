ghost use Rattle.std.specs.Prelude.{◌≡◌, ◌+◌, ◌≤◌, ◌++◌, length};
ghost use Rattle.bounded.specs.Held.{held};
ghost use Rattle.card.specs.Files.{written};
ghost use Rattle.subscriber.specs.Codes.{codes_in};
ghost use Rattle.effects.specs.Cards.{code_bytes, codes_bytes};

use bounded::Bounded;
use card::Card;
use plmn::Code;
use subscriber::CodeList;

/// The three bytes of a code, behind others.
fn push_code(bytes: &mut Bounded<u8, 240>, code: Code)
    requires { length (held bytes.old) + 3 ≤ 240 }
    ensures bytes { held bytes.new ≡ held bytes.old ++ code_bytes code }
    ensures count { length (held bytes.new) ≡ length (held bytes.old) + 3 }
{
    for byte in [code.first, code.second, code.third] {
        bytes.push(byte);
    }
}

/// Writes codes to the front of a file, in one update.
pub fn write_codes<C: Card>(card: &mut C, file: u16, codes: &CodeList)
    ensures { C.Card.files card.new ≡ written file 0 (codes_bytes (codes_in codes.now)) (C.Card.files card.old) }
{
    let mut bytes = Bounded::new(0);
    for code in codes.codes() {
        push_code(&mut bytes, *code);
    }
    let _ = card.update(file, 0, bytes.as_slice());
}
