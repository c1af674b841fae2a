ghost use Rattle.std.specs.Prelude.{◌≡◌, Bool, Decides};

/// What can be looked for in a list: `==` tells whether two values are the same.
pub trait Same: Copy + PartialEq {
    ghost alike: { Self → Self → Bool };

    ghost tells: { (x y : Self) (b : Bool) → (b ≡ Self.PartialEq.eq x y) → b ≡ alike x y };

    ghost decides: { (x y : Self) → Decides (alike x y) (x ≡ y) };
}

/// What a short list stores: one value stands for an empty place.
pub trait Element: Same {
    ghost blank: { Self };

    fn empty() -> Self
        ensures { result ≡ blank };
}
