ghost use Rattle.std.specs.Prelude.{◌≡◌, ◌≤◌, min};
ghost use Rattle.subscriber.specs.Codes.{codes_in};
ghost use Rattle.effects.specs.Accepted.{accepted_codes};

use plmn::Code;
use radio::{Finder, Registrar};
use subscriber::CodeList;

/// The valid codes among the first of a tried row's acceptance, in order; an acceptance has at most five.
pub fn accepted_codes<R: Registrar>(radio: &mut R, place: usize, count: u8) -> CodeList
    ensures value { codes_in result ≡ accepted_codes (R.Registrar.air radio.old).here place (min count 5) }
    ensures air { R.Registrar.air radio.new ≡ R.Registrar.air radio.old }
    ensures sky { R.Finder.sky radio.new ≡ R.Finder.sky radio.old }
{
    let mut codes = CodeList::none();
    for i in 0..count.min(5) {
        let code = radio.accepted_code(place, i as usize);
        if code.is_valid() {
            codes.add(code);
        }
    }
    codes
}
