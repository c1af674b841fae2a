ghost use Rattle.std.specs.Prelude.{◌≡◌};
ghost use Rattle.plmn.specs.Technologies.{with_number};
ghost use Rattle.person.specs.Names.{name_of};

use plmn::Technology;

/// The name of the technology with this number.
pub fn technology_name(number: u8) -> &'static str
    ensures { result.now ≡ name_of (with_number number) }
{
    match Technology::try_from(number) {
        Ok(technology) => names::technology_name(technology),
        Err(_) => "unknown technology",
    }
}
