ghost use Rattle.std.specs.Prelude.{◌≡◌, ◌++◌, string_bytes, decimal, OnOk};
ghost use Rattle.replies.specs.Texts.{spaced};

use std::alloc::AllocError;

/// A number in decimal digits.
pub fn push_decimal(out: &mut String, number: u64) -> Result<(), AllocError>
    ensures { OnOk result (string_bytes out.new ≡ string_bytes out.old ++ decimal number) }
{
    write!(out, "{number}")
}

/// A number in decimal digits, with a space before it.
pub fn push_spaced(out: &mut String, number: u64) -> Result<(), AllocError>
    ensures { OnOk result (string_bytes out.new ≡ string_bytes out.old ++ spaced number) }
{
    write!(out, " {number}")
}
