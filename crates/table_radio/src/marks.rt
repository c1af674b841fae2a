ghost use Rattle.std.specs.Prelude.{◌≡◌, ◌<◌, true, slice_set};

/// Marks the row at a place as tried.
pub(crate) fn mark(tried: &mut [bool; 20], place: usize)
    requires { place < 20 }
    ensures { tried.new ≡ slice_set tried.old place true }
{
    tried[place] = true;
}
