ghost use Rattle.std.specs.Prelude.{◌≡◌};

use plmn::TechnologySet;

/// A radio with a set of technologies: its skies are the rows of the radio below with a technology in the set, in their order.
#[derive(Drop)]
pub struct Masked<R> {
    pub radio: R,
    pub technologies: TechnologySet,
}

impl<R> Masked<R> {
    pub fn new(radio: R, technologies: TechnologySet) -> Masked<R>
        ensures radio { result.radio ≡ radio }
        ensures technologies { result.technologies ≡ technologies }
    {
        Masked {
            radio,
            technologies,
        }
    }
}
