ghost use Rattle.std.specs.Prelude.{◌≡◌};

/// Two finders, or two registrars, as one. Each sky is the first twenty of the first radio's rows followed by the second's; a
/// sky that one of them lacks is empty. Rows past the twentieth are not shown and cannot be tried.
#[derive(Drop)]
pub struct Joined<A, B> {
    pub first: A,
    pub second: B,
}

impl<A, B> Joined<A, B> {
    pub fn new(first: A, second: B) -> Joined<A, B>
        ensures first { result.first ≡ first }
        ensures second { result.second ≡ second }
    {
        Joined { first, second }
    }
}
